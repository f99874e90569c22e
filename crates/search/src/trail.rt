//! What a search has reached.
ghost use Rattle.std.specs.Prelude.{◌≡◌, ℕ, ◌<◌, true, false, [], ◌∷◌, ◌++◌, map, length, ◌≢◌};
ghost use Rattle.sets.specs.Sets.{has, members, member};

use crate::link::Link;
use arrayvec::ArrayVec;
use sets::NumberSet;
use vocabulary::Mill;

/// The most tickets that there can be. A `Ticket` may be any number, so clauses say where one is below this.
pub(crate) const TICKETS: u16 = 1024;

/// The most mills that there can be. A `Mill` is any byte, as a call may name any, so clauses say where one is below this.
const MILLS: usize = 64;

/// The mills that a search has reached, in the order in which it reached them and as a set, and how it reached each: no link
/// where it began. No mill is reached twice, and each is below 64.
#[derive(Drop)]
pub(crate) struct Trail {
    pub(crate) queue: ArrayVec<Mill, MILLS>,
    pub(crate) reached: NumberSet,
    // An array by the number of a mill: nothing under a board allocates.
    links: [Option<Link>; MILLS],
    ghost known: { (m : ℕ) → has reached m ≡ member m (map (λ mill. mill.0) queue.items) },
    ghost below: { (m : ℕ) → has reached m ≡ true → m < 64 },
    ghost once: { length queue.items ≡ length (members reached) },
}

impl Trail {
    ghost use Rattle.search.specs.Trails.{queue_of, link_of};

    /// A trail on which nothing is reached.
    pub(crate) fn empty() -> Trail
        ensures { queue_of result ≡ [] }
    {
        Trail {
            queue: ArrayVec::new(),
            reached: NumberSet::empty(),
            links: [None; MILLS],
        }
    }

    /// Reaches one mill more.
    pub(crate) fn reach(&mut self, mill: Mill, link: Option<Link>)
        requires mill { mill.0 < 64 }
        requires new { has self.old.reached mill.0 ≡ false }
        ensures queue { queue_of self.new ≡ queue_of self.old ++ (mill.0 ∷ []) }
        ensures link { link_of self.new mill.0 ≡ link }
        ensures others { (m : ℕ) → (m ≢ mill.0) → link_of self.new m ≡ link_of self.old m }
    {
        self.queue.push(mill);
        self.reached.insert(mill.0);
        self.links[usize::from(mill.0)] = link;
    }

    /// How a mill was reached, if the search did not begin there.
    pub(crate) fn link_to(&self, mill: Mill) -> Option<Link>
        requires { mill.0 < 64 }
        ensures { result ≡ link_of self.now mill.0 }
    {
        self.links[usize::from(mill.0)]
    }
}
