// The C function on a list of particles of a mesh image.
ghost use Rattle.std.specs.Prelude.{length};
ghost use Rattle.reading_replies.specs.Replies.{Replied, measure_of_reply};

// The measure of a list of particles of a mesh image.
pub fn bench_rest_measure_of(bytes: &[u8], list: &[u8], out: &mut [u8]) -> u32
    ensures { Replied (measure_of_reply bytes.now list.now) (length out.old) result out.new }
{
    reading_c::listed::rest_measure_of(bytes, list, out)
}
