// The C functions on a mesh image.
ghost use Rattle.std.specs.Prelude.{length};
ghost use Rattle.reading_replies.specs.Replies.{Replied, pieces_reply, measure_reply};

// The number of pieces of a mesh image.
pub fn bench_pieces(bytes: &[u8], out: &mut [u8]) -> u32
    ensures { Replied (pieces_reply bytes.now) (length out.old) result out.new }
{
    reading_c::meshes::pieces(bytes, out)
}

// The measure of a mesh image.
pub fn bench_rest_measure(bytes: &[u8], out: &mut [u8]) -> u32
    ensures { Replied (measure_reply bytes.now) (length out.old) result out.new }
{
    reading_c::meshes::rest_measure(bytes, out)
}
