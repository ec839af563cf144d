// The members of every Group in order, by the one rule of placing, up to a Group that gets stuck; and a block of several opened.

#![tactic(auto)]

ghost use Rattle.std.specs.Prelude.{◌≡◌, true, List, ◌++◌, ℕ, ◌+◌, ◌-◌, ◌*◌, ◌≤◌, ◌<◌, length, get_or, take};
ghost use Rattle.cells.specs.Limits.{label_limit};
ghost use Rattle.cells.specs.Table.{is_definition};
ghost use Rattle.order.specs.LabelLists.{count, ◌∈◌};
ghost use Rattle.order.specs.Order.{members, reaches, needs, member_block, block_values, place16};
ghost use Rattle.reach.specs.MarkRows.{width};
ghost use Rattle.placing.specs.UnmetCounts.{Placed};
ghost use Rattle.reach.specs.Chains.{Empty};
ghost use Rattle.groups.specs.Members.{Chain, Chained, WalkableChain, Gathered, Items, NeedRowsFrom, NeedRowsOf, Scratch, is_masked, MaskedBy, Relinked};
ghost use Rattle.groups.specs.Opened.{Progress, GroupOrder, GroupOrders};
ghost use Rattle.groups.specs.Opening.{Siblings, MemberChains, ChainsCleared, AllInside};

use cells::ReadTable;
use kinds::Kind;

// ---- members

// Chains the members of each Group, smaller labels first.
pub fn link_members(sheet: ReadTable, next: &mut [u16])
    requires { (2 * sheet.n < length next.old) × Empty sheet.n next.old }
    ensures { Chained sheet.entry.cells.now sheet.entry.n next.new }
{
    for l in (1..sheet.n + 1).rev() {
        if sheet.is_definition(l) {
            let o = sheet.cell(l, cells::OWNER);
            next[sheet.n + l] = next[o];
            next[o] = l as u16;
        }
    }
}

// Puts the chain that starts at a label behind the first `at` items. Answers where it ends.
pub fn append_chain(n: usize, next: &[u16], label: usize, items: &mut [u16], at: usize) -> usize
    requires n_le_label_limit { (n ≤ label_limit) × (label ≤ n) × (2 * n < length next.now) × (at ≤ length items.old) }
    requires walkable_chain { WalkableChain n next.now (get_or next.now label 0) (length items.old - at) }
    ensures { (l : List ℕ) → Chain n next.now (get_or next.now label 0) l → Gathered (take at items.old ++ l) items.new result }
{
    let mut m = at;
    let mut p = next[label];
    while p != 0 {
        items[m] = p;
        m += 1;
        p = next[n + usize::from(p)];
    }
    m
}

// ---- orders

// Whether a mask takes p: a value, or a Group if those are wanted too.
fn is_masked(sheet: ReadTable, p: usize, groups: bool) -> bool
    requires { (1 ≤ p) × (p ≤ sheet.n) }
    ensures { result ≡ is_masked sheet.entry.cells.now groups p }
{
    if groups {
        return sheet.gives_values(p);
    }
    sheet.kind(p) == Kind::Value
}

// The mask of the values among the items, and of the Groups if wanted. Functions are in none: they need nothing and are not needed.
pub fn mask_items(sheet: ReadTable, items: &[u16], groups: bool, mask: &mut [u64])
    requires { ((p : ℕ) → p ∈ items.now → is_definition sheet.cells.now p ≡ true) × (width sheet.n ≤ length mask.old) }
    ensures { MaskedBy sheet.entry.cells.now sheet.entry.n groups items.now mask.new }
{
    let w = sheet.n / 64 + 1;
    marks::clear_marks(mask, w);
    for &x in items {
        let p = usize::from(x);
        if is_masked(sheet, p, groups) {
            marks::put_mark(mask, w, 0, p);
        }
    }
}

// Places items by what they need, in the order. Answers how many.
pub fn place_items(
    sheet: ReadTable,
    square: &[u64],
    items: &[u16],
    mask: &mut [u64],
    unmet: &mut [u16],
    ready: &mut [u64],
    order: &mut [u16],
) -> usize
    requires items { Items sheet.cells.now items.now }
    requires n_in_bounds { ((sheet.n + 1) * width sheet.n ≤ length square.now) × NeedRowsOf sheet.cells.now sheet.n items.now square.now }
    requires scratch { Scratch sheet.n mask.old unmet.old ready.old order.old }
    ensures { Placed (needs sheet.entry.cells.now sheet.entry.n) items.now order.new result }
{
    mask_items(sheet, items, true, mask);
    placing::place(items, square, sheet.n / 64 + 1, mask, unmet, ready, order)
}

// The chain of a Group in the order given.
pub fn relink(n: usize, next: &mut [u16], group: usize, order: &[u16])
    requires n_le_label_limit { (n ≤ label_limit) × (group ≤ n) × (2 * n < length next.old) }
    requires by_index { ((x : ℕ) → x ∈ order.now → (1 ≤ x) × (x ≤ n)) × ((x : ℕ) → count x order.now ≤ 1) }
    ensures { Relinked n group order.now next.old next.new }
{
    let mut head = 0;
    for &x in order.iter().rev() {
        next[n + usize::from(x)] = head;
        head = x;
    }
    next[group] = head;
}

// ---- Groups in order

// Puts the members of a Group in order. Answers whether it gets stuck.
fn order_group(
    sheet: ReadTable,
    square: &[u64],
    next: &mut [u16],
    group: usize,
    items: &mut [u16],
    mask: &mut [u64],
    unmet: &mut [u16],
    ready: &mut [u64],
    order: &mut [u16],
) -> bool
    requires le_group { (1 ≤ group) × (group ≤ sheet.n) × (2 * sheet.n < length next.old) × (sheet.n < length items.old) }
    requires scratch { Scratch sheet.n mask.old unmet.old ready.old order.old }
    requires n_in_bounds { ((sheet.n + 1) * width sheet.n ≤ length square.now) × NeedRowsFrom sheet.cells.now sheet.n group square.now }
    requires chain { Chain sheet.n next.old (get_or next.old group 0) (members sheet.cells.now sheet.n group) }
    ensures { GroupOrder sheet.entry.cells.now sheet.entry.n group next.old next.new result }
{
    let m = append_chain(sheet.n, next, group, items, 0);
    let r = place_items(sheet, square, &items[..m], mask, unmet, ready, order);
    if r != m {
        return true;
    }
    relink(sheet.n, next, group, &order[..r]);
    false
}

// Puts Groups in order, upward from the one given. Answers the first that gets stuck.
pub fn order_groups(
    sheet: ReadTable,
    square: &[u64],
    next: &mut [u16],
    from: usize,
    items: &mut [u16],
    mask: &mut [u64],
    unmet: &mut [u16],
    ready: &mut [u64],
    order: &mut [u16],
) -> Option<usize>
    requires le_from { (1 ≤ from) × (from ≤ sheet.n + 1) × (2 * sheet.n < length next.old) × (sheet.n < length items.old) }
    requires scratch { Scratch sheet.n mask.old unmet.old ready.old order.old }
    requires n_in_bounds { ((sheet.n + 1) * width sheet.n ≤ length square.now) × NeedRowsFrom sheet.cells.now sheet.n from square.now }
    requires progress { Progress sheet.cells.now sheet.n from next.old }
    ensures { GroupOrders sheet.entry.cells.now sheet.entry.n from next.new result }
{
    for g in from..sheet.n + 1 {
        if next[g] != 0 && order_group(sheet, square, next, g, items, mask, unmet, ready, order) {
            return Some(g);
        }
    }
    None
}

// ---- blocks of several

// The first m items are a block. Puts behind them what lies under them, Group by Group, and clears the chains. Answers how many there are.
fn open_members(sheet: ReadTable, next: &mut [u16], items: &mut [u16], m: usize) -> usize
    requires n_in_bounds { (2 * sheet.n < length next.old) × (sheet.n < length items.old) × (m ≤ length items.old) }
    requires siblings { Siblings sheet.cells.now (take m items.old) × MemberChains sheet.cells.now sheet.n (take m items.old) next.old }
    ensures all_inside { AllInside sheet.entry.cells.now (take m items.old) items.new result }
    ensures chains_cleared { ChainsCleared sheet.entry.cells.now (take m items.old) next.old next.new }
{
    let mut k = m;
    let mut i = 0;
    while i < k {
        let x = usize::from(items[i]);
        k = append_chain(sheet.n, next, x, items, k);
        next[x] = 0;
        i += 1;
    }
    k
}

// Puts the values in a block or under it in front of the items, smaller labels first, and clears the chains in it. Answers how many.
fn gather_block(
    sheet: ReadTable,
    next: &mut [u16],
    links: &[u16],
    group: usize,
    b: usize,
    items: &mut [u16],
    mask: &mut [u64],
) -> usize
    requires b_le_n { (b ≤ sheet.n) × (2 * sheet.n < length next.old) × (2 * sheet.n < length links.now) × (64 * width sheet.n ≤ length items.old) × (width sheet.n ≤ length mask.old) }
    requires chain { Chain sheet.n links.now (get_or links.now b 0) (member_block sheet.cells.now sheet.n group b)
        × MemberChains sheet.cells.now sheet.n (member_block sheet.cells.now sheet.n group b) next.old }
    ensures gathered { Gathered (block_values sheet.entry.cells.now sheet.entry.n group b) items.new result }
    ensures chains_cleared { ChainsCleared sheet.entry.cells.now (member_block sheet.entry.cells.now sheet.entry.n group b) next.old next.new }
{
    let m = append_chain(sheet.n, links, b, items, 0);
    let k = open_members(sheet, next, items, m);
    mask_items(sheet, &items[..k], false, mask);
    marks::list_marks(mask, sheet.n / 64 + 1, 0, mask, items)
}

// Puts the values in a block of several or under it in the order, by the rule of placing, and clears the chains in it. Answers how many.
pub fn open_block(
    sheet: ReadTable,
    square: &[u64],
    next: &mut [u16],
    links: &[u16],
    group: usize,
    b: usize,
    items: &mut [u16],
    mask: &mut [u64],
    unmet: &mut [u16],
    ready: &mut [u64],
    order: &mut [u16],
) -> usize
    requires no_cycle { place16 sheet.cells.now sheet.n ≡ 0 }
    requires b_le_n { (b ≤ sheet.n) × (2 * sheet.n < length next.old) × (2 * sheet.n < length links.now) × (64 * width sheet.n ≤ length items.old) }
    requires scratch { Scratch sheet.n mask.old unmet.old ready.old order.old }
    requires n_in_bounds { ((sheet.n + 1) * width sheet.n ≤ length square.now) × NeedRowsFrom sheet.cells.now sheet.n group square.now }
    requires chain { Chain sheet.n links.now (get_or links.now b 0) (member_block sheet.cells.now sheet.n group b)
        × MemberChains sheet.cells.now sheet.n (member_block sheet.cells.now sheet.n group b) next.old }
    ensures placed { Placed (reaches sheet.entry.cells.now sheet.entry.n) (block_values sheet.entry.cells.now sheet.entry.n group b) order.new result }
    ensures chains_cleared { ChainsCleared sheet.entry.cells.now (member_block sheet.entry.cells.now sheet.entry.n group b) next.old next.new }
{
    let m = gather_block(sheet, next, links, group, b, items, mask);
    place_items(sheet, square, &items[..m], mask, unmet, ready, order)
}
