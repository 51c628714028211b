// Reading numbers at an offset of a byte string, least significant byte first.
#![tactic(auto)]

ghost use Rattle.std.specs.Prelude.{◌≡◌, ◌+◌, ◌≤◌, length};
ghost use Rattle.model.specs.Format.{u16_at, u32_at, i16_at};
ghost use Rattle.little_endian.specs.Natural.{NaturalIs};

#[tactic(auto, unfolding(model::specs::Format::u16_at))]
pub fn u16_at(bytes: &[u8], at: usize) -> usize
    requires { at + 2 ≤ length bytes.now }
    ensures { NaturalIs 65536 (u16_at bytes.now at) result }
{
    usize::from(u16::from_le_bytes([bytes[at], bytes[at + 1]]))
}

#[tactic(auto, unfolding(model::specs::Format::u16_at, model::specs::Format::u32_at))]
pub fn u32_at(bytes: &[u8], at: usize) -> usize
    requires { at + 4 ≤ length bytes.now }
    ensures { NaturalIs 4294967296 (u32_at bytes.now at) result }
{
    u32::from_le_bytes([bytes[at], bytes[at + 1], bytes[at + 2], bytes[at + 3]]) as usize
}

// two's complement
#[tactic(auto, unfolding(model::specs::Format::u16_at, model::specs::Format::signed16))]
pub fn i16_at(bytes: &[u8], at: usize) -> i16
    requires { at + 2 ≤ length bytes.now }
    ensures { result ≡ i16_at bytes.now at }
{
    i16::from_le_bytes([bytes[at], bytes[at + 1]])
}
