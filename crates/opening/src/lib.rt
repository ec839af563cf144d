// Groups with blocks of several put in order: the blocks are placed, and their chains joined into that of the Group.

#![tactic(auto)]

ghost use Rattle.std.specs.Prelude.{◌≡◌, ◌+◌, ◌*◌, ◌≤◌, ◌<◌, length};
ghost use Rattle.cells.specs.Limits.{label_limit};
ghost use Rattle.order.specs.Order.{ordered, place16};
ghost use Rattle.reach.specs.MarkRows.{width};
ghost use Rattle.groups.specs.Members.{Gathered, NeedRowsFrom, Relinked};
ghost use Rattle.groups.specs.Opened.{expanded, Progress, Openable, Stopped};
ghost use Rattle.splitting.specs.Leaders.{ScratchRoom, LedMembers, LeaderChains, Chains, Expanded};

use cells::ReadTable;
use splitting::{PlacingScratch, SearchScratch};

// Puts the chains of what the order has one after the other. Answers where they end.
fn expand(n: usize, links: &[u16], order: &[u16], out: &mut [u16]) -> usize
    requires n_le_label_limit { (n ≤ label_limit) × (2 * n < length links.now) }
    requires chains { Chains n links.now order.now (length out.old) }
    ensures { Expanded n links.now order.now out.new result }
{
    let mut m = 0;
    for &b in order {
        m = groups::append_chain(n, links, usize::from(b), out, m);
    }
    m
}

// Places the blocks of a Group by what they need, each by its leader. Answers how many. The rows of the members are used up.
fn order_blocks<const N: usize, const W: usize, const L: usize>(
    sheet: ReadTable,
    square: &mut [u64],
    group: usize,
    items: &[u16],
    scratch: &mut PlacingScratch<N, W>,
    search: &mut SearchScratch<N, W, L>,
) -> usize
    requires room { ScratchRoom sheet.n N W }
    requires n_in_bounds { ((sheet.n + 1) * width sheet.n ≤ length square.old) × NeedRowsFrom sheet.cells.now sheet.n group square.old }
    requires led_members { LedMembers sheet.cells.now sheet.n group items.now search.old.lead }
    ensures gathered { Gathered (ordered sheet.entry.cells.now sheet.entry.n group) scratch.new.order result }
    ensures need_rows_from { NeedRowsFrom sheet.entry.cells.now sheet.entry.n (group + 1) square.new }
    ensures links_kept { search.new.links ≡ search.old.links }
{
    let w = sheet.n / 64 + 1;
    blocks::merge_blocks(
        items,
        &search.lead,
        square,
        w,
        &mut search.stacked,
        &mut search.list,
    );
    let k = blocks::gather_leaders(items, &search.lead, &mut search.path);
    let leaders = &search.path[..k];
    groups::mask_items(sheet, leaders, true, &mut scratch.mask);
    placing::place(
        leaders,
        square,
        w,
        &scratch.mask,
        &mut scratch.unmet,
        &mut scratch.ready,
        &mut scratch.order,
    )
}

// Puts the chains of a Group's blocks into its own, in the order of the blocks.
fn join_group<const N: usize, const W: usize, const L: usize>(
    sheet: ReadTable,
    square: &mut [u64],
    next: &mut [u16],
    group: usize,
    items: &[u16],
    scratch: &mut PlacingScratch<N, W>,
    search: &mut SearchScratch<N, W, L>,
)
    requires group_le_n { (group ≤ sheet.n) × (2 * sheet.n < length next.old) }
    requires room { ScratchRoom sheet.n N W × (2 * sheet.n < L) }
    requires n_in_bounds { ((sheet.n + 1) * width sheet.n ≤ length square.old) × NeedRowsFrom sheet.cells.now sheet.n group square.old }
    requires led_members { LedMembers sheet.cells.now sheet.n group items.now search.old.lead × LeaderChains sheet.cells.now sheet.n group search.old.links }
    ensures relinked { Relinked sheet.entry.n group (expanded sheet.entry.cells.now sheet.entry.n group) next.old next.new }
    ensures need_rows_from { NeedRowsFrom sheet.entry.cells.now sheet.entry.n (group + 1) square.new }
{
    let k = order_blocks(sheet, square, group, items, scratch, search);
    let r = expand(
        sheet.n,
        &search.links,
        &scratch.order[..k],
        &mut search.stack,
    );
    groups::relink(sheet.n, next, group, &search.stack[..r]);
}

// Puts a Group in order whose members get stuck: its blocks of several are opened, and all its blocks placed. Above it, a Group that is in
// or under such a block has no chain then.
fn open_group<const N: usize, const W: usize, const L: usize>(
    sheet: ReadTable,
    square: &mut [u64],
    next: &mut [u16],
    group: usize,
    items: &mut [u16],
    scratch: &mut PlacingScratch<N, W>,
    search: &mut SearchScratch<N, W, L>,
)
    requires no_cycle { place16 sheet.cells.now sheet.n ≡ 0 }
    requires n_in_bounds { (2 * sheet.n < length next.old) × (sheet.n < length items.old) }
    requires room { ScratchRoom sheet.n N W × (2 * sheet.n < L) }
    requires n_in_bounds_2 { ((sheet.n + 1) * width sheet.n ≤ length square.old) × NeedRowsFrom sheet.cells.now sheet.n group square.old }
    requires openable { Openable sheet.cells.now sheet.n group next.old }
    ensures { Progress sheet.entry.cells.now sheet.entry.n (group + 1) next.new × NeedRowsFrom sheet.entry.cells.now sheet.entry.n (group + 1) square.new }
{
    let m = splitting::split_group(sheet, square, next, group, items, scratch, search);
    join_group(sheet, square, next, group, &items[..m], scratch, search);
}

// Opens the Group that is stuck, and each one after it that gets stuck.
pub fn open_groups<const N: usize, const W: usize, const L: usize>(
    sheet: ReadTable,
    square: &mut [u64],
    next: &mut [u16],
    first: Option<usize>,
    items: &mut [u16],
    scratch: &mut PlacingScratch<N, W>,
    search: &mut SearchScratch<N, W, L>,
)
    requires no_cycle { place16 sheet.cells.now sheet.n ≡ 0 }
    requires n_in_bounds { (2 * sheet.n < length next.old) × (sheet.n < length items.old) }
    requires room { ScratchRoom sheet.n N W × (2 * sheet.n < L) }
    requires n_in_bounds_2 { ((sheet.n + 1) * width sheet.n ≤ length square.old) × Stopped sheet.cells.now sheet.n first next.old square.old }
    ensures { Progress sheet.entry.cells.now sheet.entry.n (sheet.entry.n + 1) next.new }
{
    let mut stuck = first;
    while let Some(group) = stuck {
        open_group(sheet, square, next, group, items, scratch, search);
        stuck = scratch.order_groups(sheet, square, next, group + 1, items);
    }
}
