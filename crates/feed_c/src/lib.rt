// A reader of sheets that is closed by a host: the reply is that of the whole sheet.
#![tactic(auto)]

ghost use Rattle.std.specs.Prelude.{length};
ghost use Rattle.feed_c.specs.Closing.{Closed};

// Closes a reader and gives what the whole sheet gives; a reader that is closed already gets 10, and 4 is where there is no reader.
pub fn close_sheet(reader: &mut [u8], out: &mut [u8]) -> u32
    ensures { Closed reader.old reader.new (length out.old) result out.new }
{
    let why = feeding::shut_reader(reader);
    if why != 0 {
        return replies::reply_refused(why as usize, out);
    }
    let end = 8 + feeding::held(reader);
    sheet_c::reading::read_sheet(&reader[8..end], out)
}
