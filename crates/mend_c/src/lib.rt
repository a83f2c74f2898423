// Mending through C: the mended sheet, what is said, and how many bytes each has.
#![tactic(auto)]

ghost use Rattle.std.specs.Prelude.{length};
ghost use Rattle.mend_c.specs.Mends.{MendReplied};

use mender::MendError;
use mesh::refusals::Refusal;

// Mends a broken sheet: 0, with the numbers of bytes of the mended sheet and of the text as two words; or a refusal's number, with every lent byte 0.
pub fn mend(broken: &[u8], mended: &mut [u8], text: &mut [u8], counts: &mut [u8]) -> u32
    ensures { MendReplied broken.now (length mended.old) (length text.old) (length
        counts.old) result mended.new text.new counts.new }
{
    let told = mender::mend_sheet(broken, mended, text);
    match told {
        Ok(k) => {
            if counts.len() < 8 {
                bits::blank(mended);
                listing::finish(text, None);
                return replies::reply_refused(Refusal::Argument.number(), counts);
            }
            image_writing::write_two(counts, k.sheet, k.text);
            0
        }
        Err(why) => match why {
            MendError::Short => replies::reply_refused(Refusal::Argument.number(), counts),
            MendError::Refused(e) => replies::reply_refused(e.number(), counts),
        },
    }
}
