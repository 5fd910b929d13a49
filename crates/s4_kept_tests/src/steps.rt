//! What is done with the chains of a store, and asked of them: the same for each kind of store.

ghost use Rattle.std.specs.Prelude.{All};
ghost use Rattle.s4_store.specs.Chains.{IsOpen, StillOpen};

use s4_arena::Arena;
use s4_store::{Chain, PlainStore, Store};
use std::process::Abort;

/// A step on one chain.
#[derive(Drop)]
pub enum Step {
    /// The item is added.
    Push(u64),
    /// It has so many items.
    Len(usize),
    /// The item of an index.
    Get(usize, u64),
    Newest(Option<u64>),
    /// An item is put at an index, in the place of another.
    Set(usize, u64, u64),
    /// The oldest item is taken out.
    DropOldest(Option<u64>),
    /// All chains have so many items.
    Used(usize),
    /// There is room for so many items then.
    Reserve(usize),
    /// There are so many blocks, where the store has any; all chains have so many items, and each
    /// node has one or is room for one.
    Nodes(u64, usize),
}

/// The place of a chain in a list of chains, and a step on it.
pub type Row = (usize, Step);

/// A store that may have blocks of nodes.
pub trait Blocks {
    /// How many blocks there are, where the store has any.
    fn block_count(&self) -> Option<u64>;
}

impl Blocks for PlainStore<u64> {
    fn block_count(&self) -> Option<u64> {
        None
    }
}

impl Blocks for Arena<u64> {
    fn block_count(&self) -> Option<u64> {
        Some(self.blocks())
    }
}

/// Whether there are so many blocks, and each of their nodes has an item or is room for one.
pub fn has_nodes<S: Store<u64> + Blocks>(store: &S, blocks: u64, used: usize) -> bool {
    match store.block_count() {
        Some(count) => {
            let nodes = (store.room() as u64).checked_add(used as u64);
            count == blocks && nodes == blocks.checked_mul(64)
        }
        None => true,
    }
}

/// Takes a step, and tells whether it could be taken and the answer is what is wanted.
fn take<S: Store<u64> + Blocks>(store: &mut S, chain: Chain, step: &Step) -> bool
    requires { IsOpen (S.chains store.old) chain }
    ensures { StillOpen (S.chains store.old) (S.chains store.new) }
{
    match *step {
        Step::Push(item) => {
            if store.room() == 0 {
                return false;
            }
            store.push(chain, item);
            true
        }
        Step::Len(wanted) => store.len(chain) == wanted,
        Step::Get(index, wanted) => {
            index < store.len(chain) && *store.get(chain, index) == wanted
        }
        Step::Newest(wanted) => store.newest(chain).copied() == wanted,
        Step::Set(index, item, wanted) => {
            if index >= store.len(chain) {
                return false;
            }
            store.set(chain, index, item) == wanted
        }
        Step::DropOldest(wanted) => store.drop_oldest(chain) == wanted,
        Step::Used(wanted) => store.used() == wanted,
        Step::Reserve(count) => store.reserve(count).is_ok() && store.room() >= count,
        Step::Nodes(blocks, used) => store.used() == used && has_nodes(store, blocks, used),
    }
}

/// Takes the steps on these chains.
pub fn follow<S: Store<u64> + Blocks>(
    rt: &impl Abort,
    store: &mut S,
    chains: &[Chain],
    what: &str,
    rows: &[Row],
)
    requires { All (IsOpen (S.chains store.old)) chains.now }
    ensures open { All (IsOpen (S.chains store.new)) chains.now }
    ensures still { StillOpen (S.chains store.old) (S.chains store.new) }
{
    for (index, (place, step)) in rows.iter().enumerate() {
        let place = *place;
        assert!(rt; place < chains.len(), "{what}, step {index}");
        assert!(rt; take(store, chains[place], step), "{what}, step {index}");
    }
}
