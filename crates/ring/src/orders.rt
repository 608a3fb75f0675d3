// Which of the two indexes carry an order from the core that stores to the core that loads.
ghost use Rattle.std.specs.Prelude.{◌≡◌};
ghost use Rattle.ring.specs.computed.Orders.{orders_of};

// Of each index: is its store a release store, and its foreign load an acquire load?
#[derive(Clone, Copy, Debug, PartialEq, Eq)]
pub(crate) struct Orders {
    pub(crate) back: bool,
    pub(crate) front: bool,
}

// As the order bits of a run file have them, set for strong: bit 0 the producer's load of front, 1 its store of back, 2 the consumer's load of
// back, 3 its store of front.
impl From<u16> for Orders {
    ghost from_gives = { λ bits r. r ≡ orders_of bits };

    fn from(bits: u16) -> Orders {
        Orders {
            back: bits / 2 % 2 == 1 && bits / 4 % 2 == 1,
            front: bits % 2 == 1 && bits / 8 % 2 == 1,
        }
    }
}
