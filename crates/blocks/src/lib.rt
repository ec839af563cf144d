// The blocks of some items whose needs stand in rows of marks. They are found by one search along paths (Gabow), which goes from an item to
// those that need it, since that is what the rows have; then the rows of each block are made one.

#![tactic(auto)]

ghost use Rattle.std.specs.Prelude.{◌≡◌, true, false, ℕ, ◌+◌, ◌*◌, ◌≤◌, ◌<◌, length, get_or};
ghost use Rattle.order.specs.LabelLists.{◌∈◌};
ghost use Rattle.marks.specs.Marks.{mark, InSquare, Added, Dropped};
ghost use Rattle.placing.specs.UnmetCounts.{needed, AllBelow, InRows};
ghost use Rattle.blocks.specs.Found.{Room, Led};
ghost use Rattle.blocks.specs.Search.{Going, Kept, Nearer, CommonMark, StartsCut, Smallest, LowestNeeder, Pushable, Pushed, HasLeft, Finished};
ghost use Rattle.blocks.specs.Merged.{Mergeable, Joined, Following, LeadOf, ClosedRow, ClosedRows, Merged, LeadersGathered};

// How many the three stacks hold: items on the stack, starts of classes, positions on the path.
#[derive(Clone, Copy)]
struct Depths {
    stack: usize,
    starts: usize,
    path: usize,
}

// Items, with the rows of those that need each, w words a row, and the mask that has the items alone.
#[derive(Clone, Copy)]
struct Needs<'a> {
    items: &'a [u16],
    square: &'a [u64],
    w: usize,
    mask: &'a [u64],
}

// The first w words of the mask, by a loop: the library's `copy_from_slice` would have the archive for C call `memmove`.
fn copy_marks(mask: &[u64], w: usize, fresh: &mut [u64])
    requires { (w ≤ length mask.now) × (w ≤ length fresh.old) }
    ensures { (q : ℕ) → mark fresh.new w 0 q ≡ mark mask.now w 0 q }
{
    for j in 0..w {
        fresh[j] = mask[j];
    }
}

// Each item leads itself.
fn lead_selves(items: &[u16], lead: &mut [u16])
    requires { AllBelow items.now (length lead.old) }
    ensures { (p : ℕ) → p ∈ items.now → get_or lead.new p 0 ≡ p }
{
    for &x in items {
        lead[usize::from(x)] = x;
    }
}

// A mark that row p and the mask have in common.
fn first_common(s: &[u64], w: usize, p: usize, mask: &[u64]) -> Option<usize>
    requires { (p * w + w ≤ length s.now) × (w ≤ length mask.now) × (w ≤ 1000) }
    ensures { CommonMark s.now mask.now w p result }
{
    marks::common_marks(s, w, p, mask).next()
}

// The starts up to `low`.
fn cut_starts(starts: &[u16], b: usize, low: usize) -> usize
    requires { b ≤ length starts.now }
    ensures { StartsCut starts.now b low result }
{
    for r in (0..b).rev() {
        if usize::from(starts[r]) <= low {
            return r + 1;
        }
    }
    0
}

// The lowest place of those on the stack that need q, or n where none does.
fn meet(square: &[u64], w: usize, q: usize, stacked: &[u64], place: &[u16], n: usize) -> usize
    requires w_in_bounds { (q * w + w ≤ length square.now) × (w ≤ length stacked.now) × (w ≤ 1000) }
    requires by_index { (x : ℕ) → mark stacked.now w 0 x ≡ true → x < length place.now }
    ensures { LowestNeeder square.now stacked.now place.now w q n result }
{
    if n == 0 {
        return 0;
    }
    let mut low = n;
    for x in marks::common_marks(square, w, q, stacked) {
        low = low.min(usize::from(place[x]));
    }
    low
}

// Puts q onto the stack and the path.
fn push(
    needs: Needs,
    fresh: &mut [u64],
    stacked: &mut [u64],
    stack: &mut [u16],
    place: &mut [u16],
    starts: &mut [u16],
    path: &mut [u16],
    q: usize,
    at: Depths,
) -> Depths
    requires { Pushable needs.square.now fresh.old stacked.old stack.old place.old starts.old path.old needs.w q at.stack at.starts at.path }
    ensures pushed { Pushed needs.entry.square.now fresh.old stacked.old stack.old place.old starts.old path.old
        fresh.new stacked.new stack.new place.new starts.new path.new needs.entry.w q at.stack at.starts at.path result.starts }
    ensures deeper { (result.stack ≡ at.stack + 1) × (result.path ≡ at.path + 1) }
{
    let n = at.stack;
    let low = meet(needs.square, needs.w, q, stacked, place, n);
    marks::drop_mark(fresh, needs.w, 0, q);
    marks::put_mark(stacked, needs.w, 0, q);
    stack[n] = q as u16;
    place[q] = n as u16;
    path[at.path] = n as u16;
    starts[at.starts] = n as u16;
    Depths {
        stack: n + 1,
        starts: cut_starts(starts, at.starts + 1, low),
        path: at.path + 1,
    }
}

// The smallest label at the positions from s to n.
fn smallest(stack: &[u16], s: usize, n: usize) -> u16
    requires { (s < n) × (n ≤ length stack.now) }
    ensures { Smallest stack.now s n result }
{
    let mut least = stack[s];
    for &x in &stack[s + 1..n] {
        least = least.min(x);
    }
    least
}

// Those at the positions from s to n leave the stack, and get their lead.
fn leave(
    stack: &[u16],
    s: usize,
    n: usize,
    least: u16,
    w: usize,
    stacked: &mut [u64],
    lead: &mut [u16],
)
    requires s_le_n { (s ≤ n) × (n ≤ length stack.now) × (w ≤ length stacked.old) }
    requires by_index { (k : ℕ) → s ≤ k → k < n → (mark stacked.old w 0 (get_or stack.now k 0) ≡ true) × (get_or stack.now k 0 < length lead.old) }
    requires by_index_2 { (i k : ℕ) → i < k → k < n → get_or stack.now i 0 ≡ get_or stack.now k 0 → ⊥ }
    ensures { HasLeft stack.now stacked.old stacked.new lead.old lead.new w s n least }
{
    for &x in &stack[s..n] {
        let x = usize::from(x);
        marks::drop_mark(stacked, w, 0, x);
        lead[x] = least;
    }
}

// The block that stands at the positions from s to n is found.
fn finish(stack: &[u16], s: usize, n: usize, w: usize, stacked: &mut [u64], lead: &mut [u16])
    requires s_lt_n { (s < n) × (n ≤ length stack.now) × (w ≤ length stacked.old) }
    requires by_index { (k : ℕ) → s ≤ k → k < n → (mark stacked.old w 0 (get_or stack.now k 0) ≡ true) × (get_or stack.now k 0 < length lead.old) }
    requires by_index_2 { (i k : ℕ) → i < k → k < n → get_or stack.now i 0 ≡ get_or stack.now k 0 → ⊥ }
    ensures { Finished stack.now stacked.old stacked.new lead.old lead.new w s n }
{
    let least = smallest(stack, s, n);
    leave(stack, s, n, least, w, stacked, lead);
}

// One step from the top of the path: to an item not met that needs it, or back, where there is none. The block whose start is left is found.
fn step(
    needs: Needs,
    fresh: &mut [u64],
    stacked: &mut [u64],
    stack: &mut [u16],
    place: &mut [u16],
    starts: &mut [u16],
    path: &mut [u16],
    lead: &mut [u16],
    at: Depths,
) -> Depths
    requires in_rows { InRows needs.items.now needs.square.now needs.mask.now needs.w }
    requires room { Room needs.items.now fresh.old stacked.old stack.old place.old starts.old path.old lead.old needs.w }
    requires p_nonzero { 0 < at.path }
    requires going { Going needs.items.now needs.square.now needs.mask.now fresh.old stacked.old stack.old place.old starts.old path.old lead.old needs.w at.stack at.starts at.path }
    ensures going_2 { Going needs.entry.items.now needs.entry.square.now needs.entry.mask.now
        fresh.new stacked.new stack.new place.new starts.new path.new lead.new needs.entry.w result.stack result.starts result.path }
    ensures nearer { Nearer needs.entry.items.now fresh.old fresh.new needs.entry.w at.path result.path }
{
    let top = usize::from(path[at.path - 1]);
    if let Some(q) = first_common(needs.square, needs.w, usize::from(stack[top]), fresh) {
        return push(needs, fresh, stacked, stack, place, starts, path, q, at);
    }
    if top == usize::from(starts[at.starts - 1]) {
        finish(stack, top, at.stack, needs.w, stacked, lead);
        return Depths {
            stack: top,
            starts: at.starts - 1,
            path: at.path - 1,
        };
    }
    Depths {
        path: at.path - 1,
        ..at
    }
}

// The blocks of q and of all that need it, where q is not met yet.
fn search(
    needs: Needs,
    fresh: &mut [u64],
    stacked: &mut [u64],
    stack: &mut [u16],
    place: &mut [u16],
    starts: &mut [u16],
    path: &mut [u16],
    lead: &mut [u16],
    q: usize,
)
    requires in_rows { InRows needs.items.now needs.square.now needs.mask.now needs.w }
    requires room { Room needs.items.now fresh.old stacked.old stack.old place.old starts.old path.old lead.old needs.w }
    requires q { q ∈ needs.items.now }
    requires going { Going needs.items.now needs.square.now needs.mask.now fresh.old stacked.old stack.old place.old starts.old path.old lead.old needs.w 0 0 0 }
    ensures going_2 { Going needs.entry.items.now needs.entry.square.now needs.entry.mask.now
        fresh.new stacked.new stack.new place.new starts.new path.new lead.new needs.entry.w 0 0 0 }
    ensures kept { Kept fresh.old fresh.new needs.entry.w × (mark fresh.new needs.entry.w 0 q ≡ false) }
{
    if !marks::has_mark(fresh, needs.w, 0, q) {
        return;
    }
    let nothing = Depths {
        stack: 0,
        starts: 0,
        path: 0,
    };
    let mut at = push(
        needs, fresh, stacked, stack, place, starts, path, q, nothing,
    );
    while 0 < at.path {
        at = step(needs, fresh, stacked, stack, place, starts, path, lead, at);
    }
}

// For each of the items the smallest label of its block.
pub fn find_blocks(
    items: &[u16],
    square: &[u64],
    w: usize,
    mask: &[u64],
    fresh: &mut [u64],
    stacked: &mut [u64],
    stack: &mut [u16],
    place: &mut [u16],
    starts: &mut [u16],
    path: &mut [u16],
    lead: &mut [u16],
)
    requires in_rows { InRows items.now square.now mask.now w }
    requires room { Room items.now fresh.old stacked.old stack.old place.old starts.old path.old lead.old w }
    ensures { Led (needed square.now mask.now w) items.now lead.new }
{
    copy_marks(mask, w, fresh);
    marks::clear_marks(stacked, w);
    lead_selves(items, lead);
    let needs = Needs {
        items,
        square,
        w,
        mask,
    };
    for &q in items {
        search(
            needs,
            fresh,
            stacked,
            stack,
            place,
            starts,
            path,
            lead,
            usize::from(q),
        );
    }
}

// ---- blocks merged

// The followers' rows are added to those of their leads. A follower's row is not written, so each is added as it was.
fn join_rows(items: &[u16], lead: &[u16], square: &mut [u64], w: usize, followers: &mut [u64])
    requires mergeable { Mergeable items.now lead.now square.old w }
    requires w_in_bounds { (w ≤ length followers.old) × ((p : ℕ) → mark followers.old w 0 p ≡ false) }
    ensures { Joined items.now lead.now square.old square.new followers.new w }
{
    for &x in items {
        let x = usize::from(x);
        let b = usize::from(lead[x]);
        if b != x {
            marks::put_mark(followers, w, 0, x);
            marks::merge_row(square, w, x, b);
        }
    }
}

// Row x gains the leads of those of the list.
fn put_leads(list: &[u16], lead: &[u16], square: &mut [u64], w: usize, x: usize)
    requires row { x * w + w ≤ length square.old }
    requires by_index { (y : ℕ) → y ∈ list.now → (y < length lead.now) × (get_or lead.now y 0 < 64 * w) }
    ensures { Added (LeadOf list.now lead.now) square.old square.new w x }
{
    for &y in list {
        let b = usize::from(lead[usize::from(y)]);
        marks::put_mark(square, w, x, b);
    }
}

// Row x loses mark x, if it has it.
fn drop_own(square: &mut [u64], w: usize, x: usize)
    requires { InSquare square.old w x x }
    ensures { Dropped square.old square.new w x x }
{
    if marks::has_mark(square, w, x, x) {
        marks::drop_mark(square, w, x, x);
    }
}

// In the row of a leader each follower counts for its lead, and nothing needs itself.
fn close_row(
    lead: &[u16],
    square: &mut [u64],
    w: usize,
    x: usize,
    followers: &[u64],
    list: &mut [u16],
)
    requires in_square { InSquare square.old w x x × (w ≤ 1000) × (w ≤ length followers.now) × (64 * w ≤ length list.old) }
    requires following { Following lead.now followers.now w }
    ensures { ClosedRow lead.now square.old square.new followers.now w x }
{
    let m = marks::list_marks(square, w, x, followers, list);
    put_leads(&list[..m], lead, square, w, x);
    drop_own(square, w, x);
}

fn close_rows(
    items: &[u16],
    lead: &[u16],
    square: &mut [u64],
    w: usize,
    followers: &[u64],
    list: &mut [u16],
)
    requires mergeable { Mergeable items.now lead.now square.old w }
    requires following { Following lead.now followers.now w × (w ≤ length followers.now) × (64 * w ≤ length list.old) }
    ensures { ClosedRows items.now lead.now square.old square.new followers.now w }
{
    for &x in items {
        let x = usize::from(x);
        let b = usize::from(lead[x]);
        if b == x {
            close_row(lead, square, w, x, followers, list);
        }
    }
}

// The rows of each block become one, that of its leader, with the marks of the leaders whose blocks need it: the condensation of the needs.
pub fn merge_blocks(
    items: &[u16],
    lead: &[u16],
    square: &mut [u64],
    w: usize,
    followers: &mut [u64],
    list: &mut [u16],
)
    requires mergeable { Mergeable items.now lead.now square.old w }
    requires w_in_bounds { (w ≤ length followers.old) × (64 * w ≤ length list.old) }
    ensures { Merged items.now lead.now square.old square.new followers.new w }
{
    marks::clear_marks(followers, w);
    join_rows(items, lead, square, w, followers);
    close_rows(items, lead, square, w, followers, list);
}

// The leaders, in the sequence of the items. Answers how many.
pub fn gather_leaders(items: &[u16], lead: &[u16], out: &mut [u16]) -> usize
    requires { AllBelow items.now (length lead.now) × (length items.now ≤ length out.old) }
    ensures { LeadersGathered items.now lead.now out.new result }
{
    let mut m = 0;
    for &x in items {
        out[m] = x;
        m += usize::from(lead[usize::from(x)] == x);
    }
    m
}
