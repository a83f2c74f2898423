// The C functions without a mesh: the layout, the root, and the blade test.
ghost use Rattle.std.specs.Prelude.{◌≡◌, length};
ghost use Rattle.reading_replies.specs.Replies.{Replied, root_reply, blade_reply};
ghost use Rattle.text_c.specs.Texts.{layout_number};

// The number of the layout of images, logs, fields and results, so that a host built for another one can tell.
pub fn bench_layout() -> u32
    ensures { result ≡ layout_number }
{
    text_c::layout()
}

// The root of the number of a word.
pub fn bench_root(bits: u32, out: &mut [u8]) -> u32
    ensures { Replied (root_reply bits) (length out.old) result out.new }
{
    reading_replies::leaves::root(bits, out)
}

// The blade test on eight words.
pub fn bench_blade_hit(words: &[u8], out: &mut [u8]) -> u32
    ensures { Replied (blade_reply words.now) (length out.old) result out.new }
{
    reading_replies::leaves::blade_hit(words, out)
}
