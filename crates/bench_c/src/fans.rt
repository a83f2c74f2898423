// The C functions on the fan of a particle of a mesh image. Their sides are bytes.
ghost use Rattle.std.specs.Prelude.{length};
ghost use Rattle.reading_replies.specs.Replies.{Replied, opens_reply, groups_reply};
ghost use Rattle.fan_c.specs.Fans.{fan_reply};

// Whether sides open a particle of a mesh image without confetti.
pub fn bench_opens_without_confetti(
    bytes: &[u8],
    v: u32,
    sides: &[u8],
    minimum: u32,
    out: &mut [u8],
) -> u32
    ensures { Replied (opens_reply bytes.now v sides.now minimum) (length out.old) result
        out.new }
{
    reading_c::fans::opens_without_confetti(bytes, v as usize, sides, minimum as usize, out)
}

// The groups that sides make at a particle of a mesh image.
pub fn bench_groups(bytes: &[u8], v: u32, sides: &[u8], out: &mut [u8]) -> u32
    ensures { Replied (groups_reply bytes.now v sides.now) (length out.old) result out.new }
{
    reading_c::fans::groups(bytes, v as usize, sides, out)
}

// The numbers of the elements at a particle of a mesh image, in the order in which sides are given for them.
pub fn bench_fan(bytes: &[u8], v: u32, out: &mut [u8]) -> u32
    ensures { Replied (fan_reply bytes.now v) (length out.old) result out.new }
{
    fan_c::fan(bytes, v as usize, out)
}
