// The marks that a row and a mask have in common, one by one, upward.

ghost use Rattle.std.specs.Prelude.{◌≡◌, ◌∷◌, ◌+◌, ◌*◌, ◌≤◌, ◌<◌, length};

// Those of one word, the one at `index`: the places of the bits that are left of it. A loop over words with one over these inside is
// quicker than one loop over both, since in the inner loop the index stays as it is.
#[derive(Drop)]
pub struct WordMarks {
    index: usize,
    word: u64,
    ghost low: { index ≤ 1000 },
}

impl WordMarks {
    ghost use Rattle.marks.specs.Marks.{places};
    ghost use Rattle.marks.specs.Walk.{word_left};

    pub(crate) fn new(index: usize, word: u64) -> WordMarks
        requires { index ≤ 1000 }
        ensures { word_left result ≡ places 64 (64 * index) word }
    {
        WordMarks { index, word }
    }

    // The first of them, which goes.
    #[inline(always)]
    fn take_first(&mut self) -> usize
        requires { 0 < self.old.word }
        ensures { word_left self.old ≡ result ∷ word_left self.new }
    {
        let q = 64 * self.index + self.word.trailing_zeros() as usize;
        self.word &= self.word - 1;
        q
    }
}

impl Iterator for WordMarks {
    ghost use Rattle.std.specs.Iterator.{YieldsFirst, item_count};
    ghost use Rattle.marks.specs.Walk.{word_left};

    type Item = usize;

    ghost next_gives = { YieldsFirst word_left };

    ghost remaining = { item_count word_left };

    #[inline(always)]
    fn next(&mut self) -> Option<usize> {
        if self.word == 0 {
            return None;
        }
        Some(self.take_first())
    }
}

// Those of many words: the words to come, how many stand before them, and what is left of the last of these.
#[derive(Drop)]
pub struct CommonMarks<'a> {
    row: &'a [u64],
    mask: &'a [u64],
    at: usize,
    word: WordMarks,
    ghost even: { length mask.now ≡ length row.now },
    ghost short: { at + length row.now ≤ 1000 },
}

impl<'a> CommonMarks<'a> {
    ghost use Rattle.marks.specs.Marks.{shared};
    ghost use Rattle.marks.specs.Walk.{marks_left};

    pub(crate) fn new(row: &'a [u64], mask: &'a [u64]) -> CommonMarks<'a>
        requires { (length mask.now ≡ length row.now) × (length row.now ≤ 1000) }
        ensures { marks_left result ≡ shared 0 row.entry.now mask.entry.now }
    {
        CommonMarks {
            row,
            mask,
            at: 0,
            word: WordMarks::new(0, 0),
        }
    }
}

impl<'a> Iterator for CommonMarks<'a> {
    ghost use Rattle.std.specs.Iterator.{YieldsFirst, item_count};
    ghost use Rattle.marks.specs.Walk.{marks_left};

    type Item = usize;

    ghost next_gives = { YieldsFirst marks_left };

    ghost remaining = { item_count marks_left };

    #[inline(always)]
    fn next(&mut self) -> Option<usize> {
        while self.word.word == 0 {
            if self.row.len() == 0 {
                return None;
            }
            self.word = WordMarks::new(self.at, self.row[0] & self.mask[0]);
            self.at += 1;
            self.row = &self.row[1..];
            self.mask = &self.mask[1..];
        }
        Some(self.word.take_first())
    }
}
