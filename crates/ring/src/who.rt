// Which of the two cores: the ring's producer or its consumer.
ghost use Rattle.std.specs.Prelude.{◌≡◌, ◌<◌};
ghost use Rattle.ring.specs.computed.Who.{core_place, chosen, who_of};

#[derive(Clone, Copy, Debug, PartialEq, Eq)]
pub(crate) enum Who {
    Producer,
    Consumer,
}

impl Who {
    // The core that a core byte names, where it names one: 0 the producer, else the consumer. No From, since most bytes name no core; a TryFrom would
    // refuse those, and the core would be handed on from there (`refusal` says what that costs).
    pub(crate) fn of_byte(core: u8) -> Self
        ensures { result ≡ who_of core }
    {
        if core == 0 {
            return Who::Producer;
        }
        Who::Consumer
    }

    // The core's place among the two.
    pub(crate) fn place(self) -> usize
        ensures value { result ≡ core_place self }
        ensures low { result < 2 }
    {
        self as usize
    }

    // The first for the producer, the second for the consumer.
    pub(crate) fn pick<T: Copy>(self, producer: T, consumer: T) -> T
        ensures { result ≡ chosen self producer consumer }
    {
        match self {
            Who::Producer => producer,
            Who::Consumer => consumer,
        }
    }
}
