// The bytes with which words begin, marked among the bytes of sixteen words.
#![tactic(auto)]

ghost use Rattle.std.specs.Prelude.{◌≡◌};
ghost use Rattle.mem_tallies.specs.Tallies.{firsts};

// 1 for the first byte of each of sixteen words, 0 for the other two. A loop over bytes that adds up what the marked ones
// begin is done by vectors; one that goes by steps of three is not.
pub fn first_bytes() -> [u8; 48]
    ensures { result ≡ firsts 16 }
{
    [
        1, 0, 0, 1, 0, 0, 1, 0, 0, 1, 0, 0, // four words
        1, 0, 0, 1, 0, 0, 1, 0, 0, 1, 0, 0, // eight
        1, 0, 0, 1, 0, 0, 1, 0, 0, 1, 0, 0, // twelve
        1, 0, 0, 1, 0, 0, 1, 0, 0, 1, 0, 0, // sixteen
    ]
}
