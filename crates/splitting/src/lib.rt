// A Group split into its blocks: the lead of each member is found, and the values under a block of several stand in the chain of its leader.

#![tactic(auto)]

ghost use Rattle.std.specs.Prelude.{◌≡◌, ◌+◌, ◌*◌, ◌≤◌, ◌<◌, length, get_or, take};
ghost use Rattle.cells.specs.Limits.{label_limit};
ghost use Rattle.order.specs.Order.{members, member_block, several_plan, place16};
ghost use Rattle.reach.specs.MarkRows.{width};
ghost use Rattle.groups.specs.Members.{Chain, NeedRowsFrom, Relinked};
ghost use Rattle.groups.specs.Opened.{tangled_members, Progress, Openable, GroupOrders};
ghost use Rattle.groups.specs.Opening.{MemberChains, ChainsCleared};
ghost use Rattle.splitting.specs.Leaders.{ScratchRoom, LedMembers, Linkable, BlockChains, leads_several, LeaderChains};

use cells::ReadTable;

// What placing is lent for labels below N and rows of W words. It is as large as its sheet needs, since it is zeroed at each call.
#[derive(Drop)]
pub struct PlacingScratch<const N: usize, const W: usize> {
    pub mask: [u64; W],
    pub unmet: [u16; N],
    pub ready: [u64; W],
    pub order: [u16; N],
    ghost sizes: { (length unmet ≡ N) × (length order ≡ N) × (length mask ≡ W) × (length ready ≡ W) },
}

impl<const N: usize, const W: usize> PlacingScratch<N, W> {
    // Puts Groups in order, upward from the one given. Answers the first that gets stuck.
    pub fn order_groups(
        &mut self,
        sheet: ReadTable,
        square: &[u64],
        next: &mut [u16],
        from: usize,
        items: &mut [u16],
    ) -> Option<usize>
        requires le_from { (1 ≤ from) × (from ≤ sheet.n + 1) × (2 * sheet.n < length next.old) × (sheet.n < length items.old) }
        requires room { ScratchRoom sheet.n N W }
        requires n_in_bounds { ((sheet.n + 1) * width sheet.n ≤ length square.now) × NeedRowsFrom sheet.cells.now sheet.n from square.now }
        requires progress { Progress sheet.cells.now sheet.n from next.old }
        ensures { GroupOrders sheet.entry.cells.now sheet.entry.n from next.new result }
    {
        groups::order_groups(
            sheet,
            square,
            next,
            from,
            items,
            &mut self.mask,
            &mut self.unmet,
            &mut self.ready,
            &mut self.order,
        )
    }
}

// What the search for blocks is lent beside what placing is lent, for labels below N, rows of W words, and chains of L cells. Where it is
// done, its stacks serve the steps after it.
#[derive(Drop)]
pub struct SearchScratch<const N: usize, const W: usize, const L: usize> {
    pub list: [u16; N],
    pub stacked: [u64; W],
    pub stack: [u16; N],
    pub path: [u16; N],
    pub lead: [u16; N],
    pub links: [u16; L],
    ghost labels: { (length list ≡ N) × (length stack ≡ N) × (length path ≡ N) × (length lead ≡ N) },
    ghost rows: { length stacked ≡ W },
    ghost chains: { length links ≡ L },
}

// Gathers a Group's members and finds the lead of each. Answers how many there are. What placing is lent serves the search before.
fn find_leads<const N: usize, const W: usize, const L: usize>(
    sheet: ReadTable,
    square: &[u64],
    next: &[u16],
    group: usize,
    items: &mut [u16],
    scratch: &mut PlacingScratch<N, W>,
    search: &mut SearchScratch<N, W, L>,
) -> usize
    requires group_le_n { (group ≤ sheet.n) × (2 * sheet.n < length next.now) × (sheet.n < length items.old) }
    requires room { ScratchRoom sheet.n N W }
    requires n_in_bounds { ((sheet.n + 1) * width sheet.n ≤ length square.now) × NeedRowsFrom sheet.cells.now sheet.n group square.now }
    requires chain { Chain sheet.n next.now (get_or next.now group 0) (members sheet.cells.now sheet.n group) }
    ensures { (result ≤ length items.new) × LedMembers sheet.entry.cells.now sheet.entry.n group (take result items.new) search.new.lead }
{
    let m = groups::append_chain(sheet.n, next, group, items, 0);
    groups::mask_items(sheet, &items[..m], true, &mut scratch.mask);
    blocks::find_blocks(
        &items[..m],
        square,
        sheet.n / 64 + 1,
        &scratch.mask,
        &mut scratch.ready,
        &mut search.stacked,
        &mut search.stack,
        &mut scratch.unmet,
        &mut scratch.order,
        &mut search.path,
        &mut search.lead,
    );
    m
}

// Chains the members of each block from its leader on, smaller labels first.
fn link_blocks(n: usize, items: &[u16], lead: &[u16], links: &mut [u16])
    requires { (n ≤ label_limit) × Linkable n items.now lead.now links.old }
    ensures { BlockChains n items.now lead.now links.new }
{
    placing::clear_cells(items, links);
    for &item in items.iter().rev() {
        let x = usize::from(item);
        let b = usize::from(lead[x]);
        links[n + x] = links[b];
        links[b] = item;
    }
}

// Whether x leads a block of several.
fn leads_several(n: usize, lead: &[u16], links: &[u16], x: usize) -> bool
    requires { (n ≤ label_limit) × (x ≤ n) × (x < length lead.now) × (2 * n < length links.now) }
    ensures { result ≡ leads_several n lead.now links.now x }
{
    usize::from(lead[x]) == x && links[n + x] != 0
}

// Opens the block that b leads: the values under it stand in the chain of b, and what lies in it or under it has no chain.
fn open_lead<const N: usize, const W: usize>(
    sheet: ReadTable,
    square: &[u64],
    next: &mut [u16],
    group: usize,
    b: usize,
    links: &mut [u16],
    pile: &mut [u16],
    scratch: &mut PlacingScratch<N, W>,
)
    requires no_cycle { place16 sheet.cells.now sheet.n ≡ 0 }
    requires b_le_n { (b ≤ sheet.n) × (2 * sheet.n < length next.old) × (2 * sheet.n < length links.old) × (64 * width sheet.n ≤ length pile.old) }
    requires room { ScratchRoom sheet.n N W }
    requires n_in_bounds { ((sheet.n + 1) * width sheet.n ≤ length square.now) × NeedRowsFrom sheet.cells.now sheet.n group square.now }
    requires chain { Chain sheet.n links.old (get_or links.old b 0) (member_block sheet.cells.now sheet.n group b)
        × MemberChains sheet.cells.now sheet.n (member_block sheet.cells.now sheet.n group b) next.old }
    ensures chains_cleared { ChainsCleared sheet.entry.cells.now (member_block sheet.entry.cells.now sheet.entry.n group b) next.old next.new }
    ensures relinked { Relinked sheet.entry.n b (several_plan sheet.entry.cells.now sheet.entry.n group b) links.old links.new }
{
    let r = groups::open_block(
        sheet,
        square,
        next,
        links,
        group,
        b,
        pile,
        &mut scratch.mask,
        &mut scratch.unmet,
        &mut scratch.ready,
        &mut scratch.order,
    );
    groups::relink(sheet.n, links, b, &scratch.order[..r]);
}

// Opens the blocks of several of a Group, one after the other.
fn open_blocks<const N: usize, const W: usize>(
    sheet: ReadTable,
    square: &[u64],
    next: &mut [u16],
    group: usize,
    items: &[u16],
    lead: &[u16],
    links: &mut [u16],
    pile: &mut [u16],
    scratch: &mut PlacingScratch<N, W>,
)
    requires no_cycle { place16 sheet.cells.now sheet.n ≡ 0 }
    requires n_in_bounds { (2 * sheet.n < length next.old) × (2 * sheet.n < length links.old) × (64 * width sheet.n ≤ length pile.old) }
    requires room { ScratchRoom sheet.n N W }
    requires n_in_bounds_2 { ((sheet.n + 1) * width sheet.n ≤ length square.now) × NeedRowsFrom sheet.cells.now sheet.n group square.now }
    requires led_members { LedMembers sheet.cells.now sheet.n group items.now lead.now × Linkable sheet.n items.now lead.now links.old }
    requires block_chains { BlockChains sheet.n items.now lead.now links.old × Openable sheet.cells.now sheet.n group next.old }
    ensures { ChainsCleared sheet.entry.cells.now (tangled_members sheet.entry.cells.now sheet.entry.n group) next.old next.new
        × LeaderChains sheet.entry.cells.now sheet.entry.n group links.new }
{
    for &item in items {
        let x = usize::from(item);
        if leads_several(sheet.n, lead, links, x) {
            open_lead(sheet, square, next, group, x, links, pile, scratch);
        }
    }
}

// Opens the blocks of several of a Group, and leaves a chain for each of its blocks. Answers how many members there are.
pub fn split_group<const N: usize, const W: usize, const L: usize>(
    sheet: ReadTable,
    square: &[u64],
    next: &mut [u16],
    group: usize,
    items: &mut [u16],
    scratch: &mut PlacingScratch<N, W>,
    search: &mut SearchScratch<N, W, L>,
) -> usize
    requires no_cycle { place16 sheet.cells.now sheet.n ≡ 0 }
    requires n_in_bounds { (2 * sheet.n < length next.old) × (sheet.n < length items.old) }
    requires room { ScratchRoom sheet.n N W × (2 * sheet.n < L) }
    requires n_in_bounds_2 { ((sheet.n + 1) * width sheet.n ≤ length square.now) × NeedRowsFrom sheet.cells.now sheet.n group square.now }
    requires openable { Openable sheet.cells.now sheet.n group next.old }
    ensures upper_bound { (result ≤ length items.new) × LedMembers sheet.entry.cells.now sheet.entry.n group (take result items.new) search.new.lead }
    ensures chains_cleared { ChainsCleared sheet.entry.cells.now (tangled_members sheet.entry.cells.now sheet.entry.n group) next.old next.new
        × LeaderChains sheet.entry.cells.now sheet.entry.n group search.new.links }
{
    let m = find_leads(sheet, square, next, group, items, scratch, search);
    link_blocks(sheet.n, &items[..m], &search.lead, &mut search.links);
    open_blocks(
        sheet,
        square,
        next,
        group,
        &items[..m],
        &search.lead,
        &mut search.links,
        &mut search.stack,
        scratch,
    );
    m
}
