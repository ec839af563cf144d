// Names and paths: rows 12 to 15 of document 01's table of refusals, and the target of each R and C.
// Each Group has buckets of its own: a lookup in a Group walks those of its members that stand in the bucket of the name looked for.

#![tactic(auto)]

ghost use Rattle.std.specs.Prelude.{◌≡◌, true, ◌&&◌, List, ℕ, ◌+◌, ◌-◌, ◌*◌, ◌%◌, ◌≤◌, ◌<◌, eqb, pos, length, get_or, set, drop, position, cond, is_none};
ghost use Rattle.std.proofs.Math.Seq.{slice};
ghost use Rattle.cells.specs.Limits.{label_limit, size_limit};
ghost use Rattle.cells.specs.Characters.{dot};
ghost use Rattle.kinds.specs.Coded.{own_code, kind_with};
ghost use Rattle.cells.specs.Table.{kind, owner, target, with_column, is_definition, has_path};
ghost use Rattle.refusals.specs.Refusal.{Fine, Refused, first_bad};
ghost use Rattle.std.specs.Option.{unwrap_or};
ghost use Rattle.text.specs.Bytes.{lowercase_byte};
ghost use Rattle.text.specs.Pieces.{cut};
ghost use Rattle.text.specs.Scans.{run_end};
ghost use Rattle.paths.specs.Names.{name_of, same_name, is_named, member};
ghost use Rattle.paths.specs.Buckets.{some_label};
ghost use Rattle.paths.specs.Buckets.{not_dot, NameInText, Searchable, bits_of, add_word, hash_of, hashes};
ghost use Rattle.paths.specs.Buckets.{Stretch, Allotted, counted_at, sum_to, MembersCounted, bucket_of};
ghost use Rattle.paths.specs.Buckets.{last_below, LinkedBelow, AllLinked, Fresh, first_in, Walkable, linked_member};
ghost use Rattle.paths.specs.Paths.{head_from, descended, target_cell, duplicate_bad, path_head_bad, later_bad, later_rows, head_rows, paths_bad};
ghost use Rattle.paths.specs.TargetCells.{head_cell, target_by, wrong_target};

use kinds::Kind;
use refusals::{Row, Verdict};

// A hash is below 2^32. The factors, for the two halves of a word, are such that no sum below wraps, and were chosen among some thousands: with
// them members with names such as `v17`, `sphere3` or sixteen letters that differ at their end share a bucket as seldom as chance would have it.
const HASHES: usize = 4294967296;

const LOW_FACTOR: usize = 877249963;

const HIGH_FACTOR: usize = 1567245785;

// Of each byte of a word its low five bits, and all bits of a word.
const FIVE_BITS: u64 = 0x1f1f1f1f1f1f1f1f;

const ALL_BITS: u64 = 0xffffffffffffffff;

// ---- names

// A name is given by the text and two positions in it, and not as a slice: it is hashed, and compared with another, by words of eight bytes of
// the text, which may reach past its end.

// Where the first dot is.
fn first_dot(path: &[u8]) -> Option<usize>
    ensures { result ≡ position (λ x. eqb x dot) path.now }
{
    path.iter().position(|byte| *byte == b'.')
}

// Where the name ends that begins at `from`: at the next dot, or at `to`.
fn name_stop(text: &[u8], from: usize, to: usize) -> usize
    requires { (from ≤ to) × (to ≤ length text.now) }
    ensures { result ≡ run_end not_dot text.now from to }
{
    match first_dot(&text[from..to]) {
        Some(size) => from + size,
        None => to,
    }
}

// The low five bits of a byte as names are compared. Both cases of a letter have the same, so that nothing is left to be done for case.
fn compared_bits(byte: u8) -> usize
    ensures { (result ≡ lowercase_byte byte % 32) × (result < 32) }
{
    usize::from(byte % 32)
}

// The low five bits of up to eight bytes as one number, byte by byte from the last.
fn tail_bits(text: &[u8], from: usize, size: usize) -> usize
    requires { (size ≤ 8) × (from + size ≤ length text.now) }
    ensures { result ≡ bits_of (slice from (from + size) text.now) }
{
    let mut bits: usize = 0;
    for i in (0..size).rev() {
        bits = compared_bits(text[from + i]) + 256 * bits;
    }
    bits
}

// The same by one word, where the text has eight bytes there: it does for every name of a sheet, since three fields follow the name's.
fn name_bits(text: &[u8], from: usize, size: usize) -> usize
    requires { (size ≤ 8) × (from + size ≤ length text.now) }
    ensures { result ≡ bits_of (slice from (from + size) text.now) }
{
    if size == 0 {
        return 0;
    }
    if text.len() - from < 8 {
        return tail_bits(text, from, size);
    }
    (text::word_at(text, from) & FIVE_BITS & (ALL_BITS >> (64 - 8 * size))) as usize
}

// A hash and a word more.
fn add_word(hash: usize, word: usize) -> usize
    requires { hash < hashes }
    ensures { result ≡ add_word hash word }
{
    ((hash + word % HASHES) * LOW_FACTOR + word / HASHES * HIGH_FACTOR) / 16 % HASHES
}

// A hash of a name, by what the comparison of names compares.
fn hash_name(text: &[u8], from: usize, to: usize) -> usize
    requires { (from ≤ to) × (to ≤ length text.now) }
    ensures { result ≡ hash_of (slice from to text.now) }
{
    let size = to - from;
    let first = add_word(0, name_bits(text, from, size.min(8)));
    if size <= 8 {
        return first;
    }
    add_word(first, name_bits(text, from + 8, (size - 8).min(8)))
}

// Whether two parts of the text, of one size, are the same name, byte by byte.
fn same_tail(text: &[u8], a: usize, b: usize, size: usize) -> bool
    requires { (a + size ≤ length text.now) × (b + size ≤ length text.now) }
    ensures { result ≡ same_name (slice a (a + size) text.now) (slice b (b + size) text.now) }
{
    for i in 0..size {
        if !text::same_but_case(text[a + i], text[b + i]) {
            return false;
        }
    }
    true
}

// Whether two parts of the text, of one size, are the same name: eight bytes at a time where eight remain, and byte by byte after that.
fn same_name(text: &[u8], a: usize, b: usize, size: usize) -> bool
    requires { (a + size ≤ length text.now) × (b + size ≤ length text.now) }
    ensures { result ≡ same_name (slice a (a + size) text.now) (slice b (b + size) text.now) }
{
    let words = size / 8;
    for word in 0..words {
        if !text::same_eight(text, a + 8 * word, b + 8 * word) {
            return false;
        }
    }
    let whole = 8 * words;
    same_tail(text, a + whole, b + whole, size - whole)
}

// Whether definition m has the name text[from..to].
fn has_name(text: &[u8], table: &[i64], m: usize, from: usize, to: usize) -> bool
    requires { (from ≤ to) × (to ≤ length text.now) × NameInText text.now table.now m × (1 ≤ m) × (8 * m ≤ length table.now) }
    ensures { result ≡ same_name (name_of text.now table.now m) (slice from to text.now) }
{
    let size = cells::label_cell(table, m, cells::NAME_LENGTH);
    if size != to - from {
        return false;
    }
    same_name(
        text,
        cells::label_cell(table, m, cells::NAME_START),
        from,
        size,
    )
}

// Whether a label, which may be none of the table's, is of this kind.
fn has_kind(table: &[i64], label: usize, wanted: Kind) -> bool
    ensures { result ≡ eqb (kind table.now label) (own_code wanted) }
{
    cells::cell_at(table, label, cells::KIND) == wanted.code()
}

// The kind of a line.
fn kind_of(table: &[i64], label: usize) -> Option<Kind>
    requires { (1 ≤ label) × (8 * label ≤ length table.now) }
    ensures { result ≡ kind_with (kind table.now label) }
{
    Kind::of_code(cells::label_cell(table, label, cells::KIND))
}

// Whether it is a definition.
fn is_definition(table: &[i64], label: usize) -> bool
    requires { (1 ≤ label) × (8 * label ≤ length table.now) }
    ensures { result ≡ is_definition table.now label }
{
    match kind_of(table, label) {
        Some(kind) => kind.is_definition(),
        None => false,
    }
}

// A label as a cell or a link holds it, where 0 is none.
fn some_label(cell: usize) -> Option<usize>
    ensures { result ≡ some_label cell }
{
    if cell == 0 { None } else { Some(cell) }
}

// ---- buckets

// The bucket of a name's hash in a Group, of those from starts[group] up to starts[group + 1].
fn bucket(starts: &[u16], group: usize, hash: usize) -> usize
    requires { Stretch starts.now group × (hash < hashes) }
    ensures { result ≡ bucket_of starts.now group hash }
{
    let start = usize::from(starts[group]);
    let size = usize::from(starts[group + 1]) - start;
    start + hash * size / HASHES
}

// A definition counts for two buckets of its Group.
fn count_label(table: &[i64], label: usize, starts: &mut [u16])
    requires { (owner table.now label + 1 < length starts.old) × (get_or starts.old (owner table.now label + 1) 0 ≤ 4096) × (1 ≤ label) × (8 * label ≤ length table.now) }
    ensures { starts.new ≡ counted_at table.now label starts.old }
{
    if is_definition(table, label) {
        let group = cells::label_cell(table, label, cells::OWNER);
        starts[group + 1] += 2;
    }
}

// Each Group's buckets are counted, at the place behind its own.
fn count_buckets(table: &[i64], n: usize, starts: &mut [u16])
    requires { (n ≤ label_limit) × ((l : ℕ) → 1 ≤ l → l ≤ n → owner table.now l < l) × MembersCounted table.now n 1 starts.old × (8 * n ≤ length table.now) }
    ensures { MembersCounted table.now n (n + 1) starts.new }
{
    for label in 1..n + 1 {
        count_label(table, label, starts);
    }
}

// Counts become starts: each is the sum of those up to it.
fn add_up(n: usize, starts: &mut [u16])
    requires { (n + 1 < length starts.old) × (sum_to starts.old (n + 1) ≤ 4096) }
    ensures { (g : ℕ) → g ≤ n + 1 → get_or starts.new g 0 ≡ sum_to starts.old g }
{
    for group in 0..n + 1 {
        starts[group + 1] += starts[group];
    }
}

// Each Group gets two buckets for each of its members, numbered from n + 1 on.
fn allot(table: &[i64], n: usize, starts: &mut [u16])
    requires n_le_label_limit { (n ≤ label_limit) × ((l : ℕ) → 1 ≤ l → l ≤ n → owner table.now l < l) × (8 * n ≤ length table.now) }
    requires n_in_bounds { (n + 1 < length starts.old) × ((i : ℕ) → get_or starts.old i 0 ≡ 0) }
    ensures { Allotted table.now n starts.new }
{
    starts[0] = (n + 1) as u16;
    count_buckets(table, n, starts);
    add_up(n, starts);
}

// ---- lookups

// What is read beside the table: the text, how many labels there are, the first bucket of each Group, and the chains. links[x] is what follows
// x in its chain, where x is a label or, behind the labels, a bucket; 0 ends a chain, since the links lie in fixed memory and no label is 0.
#[derive(Clone, Copy)]
struct Index<'a> {
    text: &'a [u8],
    n: usize,
    starts: &'a [u16],
    links: &'a [u16],
}

// The chains of a table's definitions, all of them or the first of them.
#[derive(Clone, Copy)]
struct Buckets<'a> {
    index: Index<'a>,
    table: &'a [i64],
    ghost names: { (l : ℕ) → NameInText index.text.now table.now l },
    ghost walks: { (g : ℕ) → g ≤ index.n → Walkable table.now index.starts.now index.links.now g },
}

impl Buckets<'_> {
    // Where the chain of a name's hash in a Group begins; 0 where the Group has no bucket.
    fn first_in(&self, group: usize, hash: usize) -> usize
        requires { (group ≤ self.now.index.n) × (hash < hashes) }
        ensures { result ≡ first_in self.now.index.starts.now self.now.index.links.now group hash }
    {
        let starts = self.index.starts;
        if starts[group] == starts[group + 1] {
            return 0;
        }
        usize::from(self.index.links[bucket(starts, group, hash)])
    }

    // The member of a Group with the name text[from..to], whose hash is handed in.
    fn member_in(&self, group: usize, hash: usize, from: usize, to: usize) -> Option<usize>
        requires in_table { (group ≤ self.now.index.n) × (hash < hashes) }
        requires in_text { (from ≤ to) × (to ≤ length self.now.index.text.now) }
        ensures { let i = self.now.index in result ≡ some_label (linked_member i.text.now self.now.table.now i.starts.now i.links.now group hash (slice from to i.text.now)) }
    {
        let mut m = self.first_in(group, hash);
        while m != 0 {
            if has_name(self.index.text, self.table, m, from, to) {
                return Some(m);
            }
            m = usize::from(self.index.links[m]);
        }
        None
    }
}

// A label goes to the front of the bucket's chain.
fn push(links: &mut [u16], b: usize, label: usize)
    requires { (b < length links.old) × (label < b) × (label ≤ label_limit) }
    ensures { links.new ≡ set (set links.old label (get_or links.old b 0)) b label }
{
    links[label] = links[b];
    links[b] = label as u16;
}

// Links a definition. Answers the last one before it with its name in its Group.
fn link_definition<'a>(
    text: &'a [u8],
    table: &'a [i64],
    n: usize,
    starts: &'a [u16],
    links: &'a mut [u16],
    label: usize,
) -> Option<usize>
    requires searchable { Searchable text.now table.now n × LinkedBelow text.now table.now n label starts.now links.old }
    requires le_label { (1 ≤ label) × (label ≤ n) × (is_definition table.now label ≡ true) }
    ensures value { result ≡ some_label (last_below (is_named text.now table.now (owner table.now label) (name_of text.now table.now label)) label) }
    ensures linked_below { LinkedBelow text.now table.now n (label + 1) starts.now links.new }
{
    let from = cells::label_cell(table, label, cells::NAME_START);
    let to = from + cells::label_cell(table, label, cells::NAME_LENGTH);
    let hash = hash_name(text, from, to);
    let group = cells::label_cell(table, label, cells::OWNER);
    let index = Index {
        text,
        n,
        starts,
        links,
    };
    let found = Buckets { index, table }.member_in(group, hash, from, to);
    push(links, bucket(starts, group, hash), label);
    found
}

// Row 12 at one label. A definition is linked.
fn link_label(
    text: &[u8],
    table: &[i64],
    n: usize,
    starts: &[u16],
    links: &mut [u16],
    label: usize,
) -> Option<Row>
    requires searchable { Searchable text.now table.now n × LinkedBelow text.now table.now n label starts.now links.old }
    requires le_label { (1 ≤ label) × (label ≤ n) }
    ensures value { result ≡ duplicate_bad text.now table.now label }
    ensures linked_below { LinkedBelow text.now table.now n (label + 1) starts.now links.new }
{
    if is_definition(table, label) {
        let found = link_definition(text, table, n, starts, links, label);
        if found.is_some() {
            return Some(Row::Duplicate);
        }
    }
    None
}

// Row 12. Where it finds nothing, every definition is linked.
fn link(text: &[u8], table: &[i64], n: usize, starts: &[u16], links: &mut [u16]) -> Verdict
    requires { Searchable text.now table.now n × LinkedBelow text.now table.now n 1 starts.now links.old }
    ensures value { result ≡ first_bad (duplicate_bad text.now table.now) 1 n }
    ensures all_linked { result ≡ Fine → AllLinked text.now table.now n starts.now links.new }
{
    for label in 1..n + 1 {
        if let Some(row) = link_label(text, table, n, starts, links, label) {
            return Err(row.at(label as u64));
        }
    }
    Ok(())
}

// ---- paths

// Whether the line has a path: R or C.
fn has_path(table: &[i64], label: usize) -> bool
    requires { (1 ≤ label) × (8 * label ≤ length table.now) }
    ensures { result ≡ has_path table.now label }
{
    match kind_of(table, label) {
        Some(kind) => kind.has_path(),
        None => false,
    }
}

// The members of a table's Groups, once all are linked.
#[derive(Clone, Copy)]
struct Directory<'a> {
    index: Index<'a>,
    table: &'a [i64],
    ghost rows: { Searchable index.text.now table.now index.n },
    ghost all: { AllLinked index.text.now table.now index.n index.starts.now index.links.now },
}

impl Directory<'_> {
    // The member of a Group with the name text[from..to], whose hash is handed in.
    fn member(&self, group: usize, hash: usize, from: usize, to: usize) -> Option<usize>
        requires in_table { (group ≤ self.now.index.n) × (hash ≡ hash_of (slice from to self.now.index.text.now)) }
        requires in_text { (from ≤ to) × (to ≤ length self.now.index.text.now) }
        ensures { result ≡ some_label (member self.now.index.text.now self.now.table.now self.now.index.n group (slice from to self.now.index.text.now)) }
    {
        let buckets = Buckets {
            index: self.index,
            table: self.table,
        };
        buckets.member_in(group, hash, from, to)
    }

    // The first Group around one that has members in the bucket of a hash; 0 where none has. Most have none, and a loop that compares no names
    // goes past them in registers alone.
    fn outward(&self, group: usize, hash: usize) -> usize
        requires { (1 ≤ group) × (group ≤ self.now.index.n) × (hash < hashes) }
        ensures lower { result < group }
        ensures heads { (w : List ℕ) → hash ≡ hash_of w
            → head_from self.now.index.text.now self.now.table.now self.now.index.n w result
            ≡ head_from self.now.index.text.now self.now.table.now self.now.index.n w (owner self.now.table.now group) }
    {
        let buckets = Buckets {
            index: self.index,
            table: self.table,
        };
        let mut g = cells::natural_cell(self.table, group, cells::OWNER);
        while 0 < g && buckets.first_in(g, hash) == 0 {
            g = cells::natural_cell(self.table, g, cells::OWNER);
        }
        g
    }

    // Where the head text[from..to] is settled: the member with that name of the first Group that has one, from `group` outward.
    fn search(&self, group: usize, from: usize, to: usize) -> Option<usize>
        requires { (group ≤ self.now.index.n) × (from ≤ to) × (to ≤ length self.now.index.text.now) }
        ensures { result ≡ some_label (head_from self.now.index.text.now self.now.table.now self.now.index.n (slice from to self.now.index.text.now) group) }
    {
        let buckets = Buckets {
            index: self.index,
            table: self.table,
        };
        let hash = hash_name(self.index.text, from, to);
        let mut g = group;
        let mut found = None;
        'groups: while 0 < g {
            let mut m = buckets.first_in(g, hash);
            while m != 0 {
                if has_name(self.index.text, self.table, m, from, to) {
                    found = Some(m);
                    break 'groups;
                }
                m = usize::from(self.index.links[m]);
            }
            g = self.outward(g, hash);
        }
        found
    }

    // Where the path text[from..to] leads whose head is settled at `head`, 0 for nowhere; None too where a later name is not found, or asked of a V or F.
    fn descend(&self, head: usize, from: usize, to: usize) -> Option<usize>
        requires { (head ≤ self.now.index.n) × (from ≤ to) × (to ≤ length self.now.index.text.now) }
        ensures { result ≡ some_label (descended self.now.index.text.now self.now.table.now self.now.index.n head (drop 1 (cut dot (slice from to self.now.index.text.now)))) }
    {
        let text = self.index.text;
        let mut m = head;
        let mut at = name_stop(text, from, to);
        while at < to {
            if !has_kind(self.table, m, Kind::Group) {
                return None;
            }
            let start = at + 1;
            at = name_stop(text, start, to);
            let hash = hash_name(text, start, at);
            m = self.member(m, hash, start, at)?;
        }
        some_label(m)
    }

    // Where the head of a line's path is settled.
    fn head_at(&self, label: usize) -> Option<usize>
        requires { (1 ≤ label) × (label ≤ self.now.index.n) }
        ensures { result ≡ some_label (head_cell self.now.index.text.now self.now.table.now self.now.index.n label) }
    {
        if !has_path(self.table, label) {
            return None;
        }
        let from = cells::label_cell(self.table, label, cells::NAME_START);
        let end = from + cells::label_cell(self.table, label, cells::NAME_LENGTH);
        let owner = cells::label_cell(self.table, label, cells::OWNER);
        let group = cells::cell_at(self.table, owner, cells::OWNER);
        self.search(group, from, name_stop(self.index.text, from, end))
    }

    // Where a line's path ends, from where its head is settled.
    fn target_at(&self, label: usize, head: usize) -> Option<usize>
        requires { (1 ≤ label) × (label ≤ self.now.index.n) × (head ≤ self.now.index.n) }
        ensures { result ≡ some_label (target_by self.now.index.text.now self.now.table.now self.now.index.n label head) }
    {
        if !has_path(self.table, label) {
            return None;
        }
        let from = cells::label_cell(self.table, label, cells::NAME_START);
        // the end lies in the text too, so that it fits
        prove!(from <= self.index.text.len());
        let end = from + cells::label_cell(self.table, label, cells::NAME_LENGTH);
        self.descend(head, from, end)
    }
}

// Row 15 at one label, whose target is in its cell.
fn wrong_target_at(table: &[i64], label: usize) -> Option<Row>
    requires { (1 ≤ label) × (8 * label ≤ length table.now) }
    ensures { result ≡ wrong_target table.now label }
{
    let wanted = kind_of(table, label)?.wants()?;
    let target = cells::label_cell(table, label, cells::TARGET);
    if has_kind(table, target, wanted) {
        return None;
    }
    Some(Row::Target)
}

// ---- the passes

// What a line's path has come to stands in its target cell, where 0 is nothing. A line with a path that came to nothing is refused by the row.
fn settle(table: &mut [i64], label: usize, found: Option<usize>, row: Row) -> Verdict
    requires { (1 ≤ label) × (8 * label ≤ length table.old) × (unwrap_or found 0 ≤ size_limit) }
    ensures value { result ≡ cond (has_path table.new label && is_none found) (Refused row label) Fine }
    ensures table_after { table.new ≡ set table.old (8 * (label - 1) + 7) (pos (unwrap_or found 0)) }
{
    cells::put_cell(table, label, cells::TARGET, found.unwrap_or(0));
    if has_path(table, label) && found.is_none() {
        return Err(row.at(label as u64));
    }
    Ok(())
}

// Row 13. The heads stand in the target cells.
fn settle_heads(index: Index, table: &mut [i64]) -> Verdict
    requires { Searchable index.text.now table.old index.n × AllLinked index.text.now table.old index.n index.starts.now index.links.now }
    ensures value { result ≡ first_bad (path_head_bad index.entry.text.now table.old index.entry.n) 1 index.entry.n }
    ensures table_after { result ≡ Fine → table.new ≡ with_column 7 (head_cell index.entry.text.now table.old index.entry.n) index.entry.n table.old }
{
    for label in 1..index.n + 1 {
        let head = Directory { index, table }.head_at(label);
        settle(table, label, head, Row::Head)?;
    }
    Ok(())
}

// Row 14. The targets stand in their cells, in place of the heads.
fn settle_targets(index: Index, table: &mut [i64]) -> Verdict
    requires searchable { Searchable index.text.now table.old index.n × AllLinked index.text.now table.old index.n index.starts.now index.links.now }
    requires by_index { (l : ℕ) → 1 ≤ l → l ≤ index.n → target table.old l ≡ head_cell index.text.now table.old index.n l }
    ensures value { result ≡ first_bad (later_bad index.entry.text.now table.old index.entry.n) 1 index.entry.n }
    ensures table_after { result ≡ Fine → table.new ≡ with_column 7 (target_cell index.entry.text.now table.old index.entry.n) index.entry.n table.old }
{
    for label in 1..index.n + 1 {
        let head = cells::label_cell(table, label, cells::TARGET);
        let end = Directory { index, table }.target_at(label, head);
        settle(table, label, end, Row::Later)?;
    }
    Ok(())
}

// Row 15.
fn check_targets(table: &[i64], n: usize) -> Verdict
    requires { (n ≤ label_limit) × (8 * n ≤ length table.now) }
    ensures { result ≡ first_bad (wrong_target table.now) 1 n }
{
    for label in 1..n + 1 {
        if let Some(row) = wrong_target_at(table, label) {
            return Err(row.at(label as u64));
        }
    }
    Ok(())
}

// Rows 14 and 15, with the heads in the target cells.
fn resolve_later(index: Index, table: &mut [i64]) -> Verdict
    requires searchable { Searchable index.text.now table.old index.n × AllLinked index.text.now table.old index.n index.starts.now index.links.now }
    requires by_index { (l : ℕ) → 1 ≤ l → l ≤ index.n → target table.old l ≡ head_cell index.text.now table.old index.n l }
    ensures value { result ≡ later_rows index.entry.text.now table.old index.entry.n }
    ensures table_after { result ≡ Fine → table.new ≡ with_column 7 (target_cell index.entry.text.now table.old index.entry.n) index.entry.n table.old }
{
    settle_targets(index, table)?;
    check_targets(table, index.n)
}

// Rows 13 to 15.
fn resolve_heads(index: Index, table: &mut [i64]) -> Verdict
    requires { Searchable index.text.now table.old index.n × AllLinked index.text.now table.old index.n index.starts.now index.links.now }
    ensures value { result ≡ head_rows index.entry.text.now table.old index.entry.n }
    ensures table_after { result ≡ Fine → table.new ≡ with_column 7 (target_cell index.entry.text.now table.old index.entry.n) index.entry.n table.old }
{
    settle_heads(index, table)?;
    resolve_later(index, table)
}

// Rows 12 to 15, once each Group has its buckets.
fn resolve<'a>(
    text: &'a [u8],
    table: &mut [i64],
    n: usize,
    starts: &'a [u16],
    links: &'a mut [u16],
) -> Verdict
    requires { Searchable text.now table.old n × LinkedBelow text.now table.old n 1 starts.now links.old }
    ensures value { result ≡ paths_bad text.now table.old n }
    ensures table_after { result ≡ Fine → table.new ≡ with_column 7 (target_cell text.now table.old n) n table.old }
{
    link(text, table, n, starts, links)?;
    let index = Index {
        text,
        n,
        starts,
        links,
    };
    resolve_heads(index, table)
}

// Rows 12 to 15, with scratch that is all zeros.
fn read_with(
    text: &[u8],
    table: &mut [i64],
    n: usize,
    starts: &mut [u16],
    links: &mut [u16],
) -> Verdict
    requires { Searchable text.now table.old n × Fresh n starts.old links.old }
    ensures value { result ≡ paths_bad text.now table.old n }
    ensures table_after { result ≡ Fine → table.new ≡ with_column 7 (target_cell text.now table.old n) n table.old }
{
    allot(table, n, starts);
    resolve(text, table, n, starts, links)
}

// The same with scratch of its own, of these sizes: it is zeroed at each call.
fn read_within<const STARTS: usize, const LINKS: usize>(
    text: &[u8],
    table: &mut [i64],
    n: usize,
) -> Verdict
    requires { Searchable text.now table.old n × (n + 1 < STARTS) × (n + 2 * n < LINKS) × (STARTS < 65536) × (LINKS < 65536) }
    ensures value { result ≡ paths_bad text.now table.old n }
    ensures table_after { result ≡ Fine → table.new ≡ with_column 7 (target_cell text.now table.old n) n table.old }
{
    let mut starts = [0u16; STARTS];
    let mut links = [0u16; LINKS];
    read_with(text, table, n, &mut starts, &mut links)
}

// Rows 12 to 15. Where they find nothing, the target of each R and C stands in its cell; where they refuse, the table is for the
// caller to clear.
pub fn read_paths(text: &[u8], table: &mut [i64], n: usize) -> Verdict
    requires { Searchable text.now table.old n }
    ensures value { result ≡ paths_bad text.now table.old n }
    ensures table_after { result ≡ Fine → table.new ≡ with_column 7 (target_cell text.now table.old n) n table.old }
{
    // most sheets are small
    if n < 128 {
        return read_within::<129, 384>(text, table, n);
    }
    read_within::<1026, 3075>(text, table, n)
}
