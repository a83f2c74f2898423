// What is told where the bytes beside an image could not be read: the refusals of its mesh, and behind them 4.
ghost use Rattle.std.specs.Prelude.{◌≡◌, true, false};
ghost use Rattle.model.specs.Calls.{refusal};
ghost use Rattle.mesh.specs.Given.{mesh_of};
ghost use Rattle.image.specs.Image.{image_of, image_sized_of};

use crate::Question;

// The refusal of a call beside whose image something could not be read. The reply has no words, so it needs no bytes. (The C interface has its number.)
pub fn unread(bytes: &[u8]) -> usize
    ensures { result ≡ refusal (image_sized_of bytes.now) (mesh_of (image_of bytes.now)) true false }
{
    let none = [0usize; 1];
    let mut out = [0u8; 1];
    crate::questions::image_asked(Question::Unread, &none, bytes, &mut out) as usize
}
