// The ranges (docs/RULES.md, R2.10) of the numbers of a mesh.
ghost use Rattle.std.specs.Prelude.{◌≡◌};
ghost use Rattle.float.specs.Ranges.{finite?, number?, volume?, not_below0?};

// Neither a NaN nor an infinity.
pub fn finite(x: f32) -> bool
    ensures { result ≡ finite? x }
{
    if x <= 3.4028235e38 {
        x >= -3.4028235e38
    } else {
        false
    }
}

// Finite, and its magnitude at most 1,048,576.
pub fn in_range(x: f32) -> bool
    ensures { result ≡ number? x }
{
    if x <= 1048576.0 {
        x >= -1048576.0
    } else {
        false
    }
}

// Finite, and its magnitude at most 4,194,304: a rest volume.
pub fn volume_in_range(x: f32) -> bool
    ensures { result ≡ volume? x }
{
    if x <= 4194304.0 {
        x >= -4194304.0
    } else {
        false
    }
}

// At least 0, minus zero included.
pub fn not_below_zero(x: f32) -> bool
    ensures { result ≡ not_below0? x }
{
    x >= 0.0
}
