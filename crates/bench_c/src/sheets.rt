// The C functions on sheets: one read, whole or in parts, one written, one mended, the listing of its cut, and the differences of two.
ghost use Rattle.std.specs.Prelude.{length};
ghost use Rattle.sheetcut.specs.SheetCut.{listed};
ghost use Rattle.differing.specs.Differed.{differed};
ghost use Rattle.sheet_c.specs.Sheets.{sheet_reply};
ghost use Rattle.sheet_c.specs.Fields.{SheetWritten};
ghost use Rattle.feeding.specs.Feeding.{OpenDone, FeedDone};
ghost use Rattle.feed_c.specs.Closing.{Closed};
ghost use Rattle.mend_c.specs.Mends.{MendReplied};
ghost use Rattle.reading_replies.specs.Replies.{Replied};
ghost use Rattle.text_c.specs.Texts.{TextReplied};

// The blade and the mesh image of a sheet.
pub fn bench_sheet(sheet: &[u8], out: &mut [u8]) -> u32
    ensures { Replied (sheet_reply sheet.now) (length out.old) result out.new }
{
    sheet_c::reading::read_sheet(sheet, out)
}

// Opens a reader that is fed a sheet in parts.
pub fn bench_sheet_open(reader: &mut [u8]) -> u32
    ensures { OpenDone reader.old result reader.new }
{
    feeding::open_reader(reader)
}

// Feeds it a part.
pub fn bench_sheet_feed(reader: &mut [u8], part: &[u8]) -> u32
    ensures { FeedDone reader.old part.now result reader.new }
{
    feeding::feed_bytes(reader, part)
}

// Closes it: the blade and the mesh image of the whole sheet.
pub fn bench_sheet_close(reader: &mut [u8], out: &mut [u8]) -> u32
    ensures { Closed reader.old reader.new (length out.old) result out.new }
{
    feed_c::close_sheet(reader, out)
}

// The bytes of the sheet whose fields are words.
pub fn bench_sheet_write(fields: &[u8], out: &mut [u8]) -> u32
    ensures { SheetWritten fields.now out.old out.new result }
{
    match sheet_c::writing::write_sheet(fields, out) {
        Ok(()) => 0,
        Err(e) => e.number() as u32,
    }
}

// A broken sheet mended: the mended sheet, what is said, and how many bytes each has.
pub fn bench_mend(broken: &[u8], mended: &mut [u8], text: &mut [u8], counts: &mut [u8]) -> u32
    ensures { MendReplied broken.now (length mended.old) (length text.old) (length
        counts.old) result mended.new text.new counts.new }
{
    mend_c::mend(broken, mended, text, counts)
}

// The listing of the cut of a sheet, as the program prints it.
pub fn bench_list_cut(sheet: &[u8], out: &mut [u8]) -> u32
    ensures { TextReplied (listed sheet.now) (length out.old) result out.new }
{
    text_c::list_cut(sheet, out)
}

// The differences of two sheets, as the program prints them.
pub fn bench_difference(first: &[u8], second: &[u8], out: &mut [u8]) -> u32
    ensures { TextReplied (differed first.now second.now) (length out.old) result out.new }
{
    text_c::difference(first, second, out)
}
