// The links out of each node, or into it, as chains of a class of commodities, of lorries or of cars. Links whose head is closed are apart from those
// whose head is open, and those that the class is barred from are apart from all others.
ghost use Rattle.std.specs.Prelude.{◌<◌, [], ◌∷◌, ◌≡◌, length, replicate};
ghost use Rattle.theory.specs.Study.{column, no_link};
ghost use Rattle.search.specs.Chains.{end_of, Chainable, Linked, chain_of};

use theory::{ACCESS_POWER, HEAD, NO_LINK, TAIL, barred_to};

// Which chains: of the links into each node, and of those out of it.
pub const INTO: usize = 0;

pub const OUT: usize = 1;

// The chains of the links into each node and out of each node, put into two rows that are lent without links: what a function returns is copied. They
// are the same at all times, so a call needs them once for each class.
pub fn put_chains(links: &[[u16; 6]], lorries: bool, chains: &mut [[u16; 896]])
    requires { Chainable links.now × (chains.old ≡ replicate 2 (replicate 896 no_link)) }
    ensures { Linked lorries links.now chains.new × (length chains.new ≡ 2) }
{
    chain_links(links, lorries, HEAD, &mut chains[INTO]);
    chain_links(links, lorries, TAIL, &mut chains[OUT]);
}

// The chains of the links into each node.
pub fn into_chain(links: &[[u16; 6]], lorries: bool) -> [u16; 896]
    requires { Chainable links.now }
    ensures { result ≡ chain_of lorries links.now 1 }
{
    let mut chain = [NO_LINK; 896];
    chain_links(links, lorries, HEAD, &mut chain);
    chain
}

// Puts the links into chains by an end, from the last one down: place j has the lowest link with that end there, and place 384 + l the next
// one after link l with the same end.
fn chain_links(links: &[[u16; 6]], lorries: bool, end: usize, chain: &mut [u16; 896])
    requires { Chainable links.now × (chain.old ≡ replicate 896 no_link) × (end < 2) }
    ensures { chain.new ≡ chain_of lorries links.now end }
{
    for l in (0..links.len()).rev() {
        let j = end_of(links[l], lorries, end);
        chain[384 + l] = chain[j];
        chain[j] = l as u16;
    }
}

// Where a link ends: at its tail, or at its head; 128 places on if the head is closed; and 256 places on if the class is barred from it.
#[tactic(auto, unfolding(crate::specs::Chains::end_of))]
fn end_of(link: [u16; 6], lorries: bool, end: usize) -> usize
    requires { (end < 2) × (column end (link ∷ []) 0 < 128) }
    ensures value { result ≡ end_of lorries (link ∷ []) end 0 }
    ensures place { result < 384 }
{
    let node = usize::from(link[end]);
    if barred_to(link, lorries) {
        return 256 + node;
    }
    if link[ACCESS_POWER] % 2 == 1 {
        128 + node
    } else {
        node
    }
}
