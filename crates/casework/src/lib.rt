// What the programs that try files share: they read the files that their arguments name, and tell memory by its digest.
#![tactic(auto)]

ghost use Rattle.std.specs.Prelude.{◌≡◌, ◌≤◌, length, MatchOption, ⊤};
ghost use Rattle.casework.specs.Digest.{digest_of};

use std::fs;
use std::rt::Files;

// More than the longest file among the cases, so that one that is too long is read whole.
pub const FILE_ROOM: usize = 9000;

// What stands in every byte of memory before it is lent.
pub const MARK: u8 = 170;

const MODULUS: u64 = 65521;

// The sum of (i + 1) times byte i, modulo 65,521: every byte of the memory shows in it.
pub fn digest(memory: &[u8]) -> u64
    ensures { result ≡ digest_of memory.now }
{
    let mut sum = 0;
    for (i, byte) in memory.iter().enumerate() {
        let weight = (i as u64 + 1) % MODULUS;
        sum = (sum + weight * u64::from(*byte)) % MODULUS;
    }
    sum
}

// The bytes of the file of this name, in this room; none, where it cannot be opened.
pub fn read<'a, R: Files>(rt: &R, name: &str, room: &'a mut [u8; FILE_ROOM]) -> Option<&'a [u8]>
    ensures { MatchOption result ⊤ (λ bytes. length bytes.now ≤ 9000) }
{
    let mut file = fs::open(rt, name).ok()?;
    let came = intake::keep_from(&mut file, room);
    Some(&room[..came.kept])
}
