// The leader of a list.

#![tactic(auto)]

ghost use Rattle.std.specs.Prelude.{◌≡◌};
ghost use Rattle.protocol.specs.Steps.{leader_of};

// The largest identifier of a list, 0 of an empty one.
pub fn leader_of(list: &[u32]) -> u32
    ensures { result ≡ leader_of list.now }
{
    let mut i = list.len();
    let mut most: u32 = 0;
    while 0 < i {
        i -= 1;
        if most < list[i] {
            most = list[i];
        }
    }
    most
}
