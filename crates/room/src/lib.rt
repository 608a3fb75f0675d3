// Is there room? The one question of the queue, in plain numbers: it asks nothing of its caller.
#![tactic(auto)]

ghost use Rattle.std.specs.Prelude.{◌≡◌, ◌-◌};
ghost use Rattle.model.specs.Queue.{room_of, shortfall_of};

// The shortfall of a batch: by how much the room is below its size, or 0 where the batch fits. The lead is m for a push and 0 for a pop.
pub fn shortfall(lead: u32, modulus: u32, size: u16, own: u16, cached: u16) -> u16
    ensures { result ≡ shortfall_of lead modulus size own cached }
{
    let room = room_of(lead, modulus, own, cached);
    u64::from(size).saturating_sub(room) as u16
}

// The room: (cached + lead - own) mod M. The remainder of a number by 0 is the number.
fn room_of(lead: u32, modulus: u32, own: u16, cached: u16) -> u64
    ensures { result ≡ room_of lead modulus own cached }
{
    let ahead = u64::from(cached) + u64::from(lead) + u64::from(beyond(modulus, own));
    ahead.checked_rem(u64::from(modulus)).unwrap_or(ahead)
}

// How far the modulus lies beyond an index.
fn beyond(modulus: u32, own: u16) -> u32
    ensures { result ≡ modulus - own }
{
    modulus.saturating_sub(u32::from(own))
}
