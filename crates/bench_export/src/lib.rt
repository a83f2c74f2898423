// The C functions of the bench, as the archive exports them: each calls the function of its name in crate bench_c, and promises what that one promises.
#![tactic(auto)]

ghost use Rattle.std.specs.Prelude.{◌≡◌, length};
ghost use Rattle.reading_replies.specs.Replies.{Replied, root_reply, blade_reply, pieces_reply, measure_reply, measure_of_reply, opens_reply, groups_reply};
ghost use Rattle.text_c.specs.Texts.{layout_number, TextReplied};
ghost use Rattle.fan_c.specs.Fans.{fan_reply};
ghost use Rattle.job_replies.specs.Outcomes.{OutcomeReplied};
ghost use Rattle.bench_c.specs.Torn.{split_outcome, straddlers_outcome, cut_outcome, crack_outcome};
ghost use Rattle.sheetcut.specs.SheetCut.{listed};
ghost use Rattle.differing.specs.Differed.{differed};
ghost use Rattle.sheet_c.specs.Sheets.{sheet_reply};
ghost use Rattle.sheet_c.specs.Fields.{SheetWritten};
ghost use Rattle.feeding.specs.Feeding.{OpenDone, FeedDone};
ghost use Rattle.feed_c.specs.Closing.{Closed};
ghost use Rattle.mend_c.specs.Mends.{MendReplied};

// The number of the layout of images, logs, fields and results, so that a host built for another one can tell.
#[unsafe(no_mangle)]
pub extern "C" fn bench_layout() -> u32
    ensures { result ≡ layout_number }
{
    bench_c::leaves::bench_layout()
}

// The root of the number of a word.
#[unsafe(no_mangle)]
pub extern "C" fn bench_root(bits: u32, out: &mut [u8]) -> u32
    ensures { Replied (root_reply bits) (length out.old) result out.new }
{
    bench_c::leaves::bench_root(bits, out)
}

// The blade test on eight words.
#[unsafe(no_mangle)]
pub extern "C" fn bench_blade_hit(words: &[u8], out: &mut [u8]) -> u32
    ensures { Replied (blade_reply words.now) (length out.old) result out.new }
{
    bench_c::leaves::bench_blade_hit(words, out)
}

// The number of pieces of a mesh image.
#[unsafe(no_mangle)]
pub extern "C" fn bench_pieces(bytes: &[u8], out: &mut [u8]) -> u32
    ensures { Replied (pieces_reply bytes.now) (length out.old) result out.new }
{
    bench_c::meshes::bench_pieces(bytes, out)
}

// The measure of a mesh image.
#[unsafe(no_mangle)]
pub extern "C" fn bench_rest_measure(bytes: &[u8], out: &mut [u8]) -> u32
    ensures { Replied (measure_reply bytes.now) (length out.old) result out.new }
{
    bench_c::meshes::bench_rest_measure(bytes, out)
}

// The measure of a list of particles of a mesh image.
#[unsafe(no_mangle)]
pub extern "C" fn bench_rest_measure_of(bytes: &[u8], list: &[u8], out: &mut [u8]) -> u32
    ensures { Replied (measure_of_reply bytes.now list.now) (length out.old) result out.new }
{
    bench_c::listed::bench_rest_measure_of(bytes, list, out)
}

// Whether sides open a particle of a mesh image without confetti.
#[unsafe(no_mangle)]
pub extern "C" fn bench_opens_without_confetti(
    bytes: &[u8],
    v: u32,
    sides: &[u8],
    minimum: u32,
    out: &mut [u8],
) -> u32
    ensures { Replied (opens_reply bytes.now v sides.now minimum) (length out.old) result
        out.new }
{
    bench_c::fans::bench_opens_without_confetti(bytes, v, sides, minimum, out)
}

// The groups that sides make at a particle of a mesh image.
#[unsafe(no_mangle)]
pub extern "C" fn bench_groups(bytes: &[u8], v: u32, sides: &[u8], out: &mut [u8]) -> u32
    ensures { Replied (groups_reply bytes.now v sides.now) (length out.old) result out.new }
{
    bench_c::fans::bench_groups(bytes, v, sides, out)
}

// The numbers of the elements at a particle of a mesh image, in the order in which sides are given for them.
#[unsafe(no_mangle)]
pub extern "C" fn bench_fan(bytes: &[u8], v: u32, out: &mut [u8]) -> u32
    ensures { Replied (fan_reply bytes.now v) (length out.old) result out.new }
{
    bench_c::fans::bench_fan(bytes, v, out)
}

// The straddlers across the pieces of a mesh image removed. The job looks at no list.
#[unsafe(no_mangle)]
pub extern "C" fn bench_straddlers(
    bytes: &[u8],
    rooms: &[u8],
    out: &mut [u8],
    log: &mut [u8],
) -> u32
    ensures { OutcomeReplied (straddlers_outcome bytes.now rooms.now (length log.old)) (length
        out.old) (length log.old) result out.new log.new }
{
    bench_c::tearing::bench_straddlers(bytes, rooms, out, log)
}

// Particle v of a mesh image split by the sides of its fan. More than 2,048 sides are too many for any fan, so 2,049 of them tell.
#[unsafe(no_mangle)]
pub extern "C" fn bench_split(
    bytes: &[u8],
    v: u32,
    sides: &[u8],
    rooms: &[u8],
    out: &mut [u8],
    log: &mut [u8],
) -> u32
    ensures { OutcomeReplied (split_outcome bytes.now v sides.now rooms.now
        (length log.old)) (length out.old) (length log.old) result out.new log.new }
{
    bench_c::tearing::bench_split(bytes, v, sides, rooms, out, log)
}

// A mesh image cut along a blade of four words, in an edition, 1 or 2, with the insertion fraction of a word. The job looks at no list.
#[unsafe(no_mangle)]
pub extern "C" fn bench_cut(
    bytes: &[u8],
    blade: &[u8],
    edition: u32,
    fraction: u32,
    rooms: &[u8],
    out: &mut [u8],
    log: &mut [u8],
) -> u32
    ensures { OutcomeReplied (cut_outcome bytes.now blade.now edition fraction rooms.now
        (length log.old)) (length out.old) (length log.old) result out.new log.new }
{
    bench_c::cutting::bench_cut(bytes, blade, edition, fraction, rooms, out, log)
}

// A mesh image cracked across torn edges, a word for each, with a minimum piece.
#[unsafe(no_mangle)]
pub extern "C" fn bench_crack(
    bytes: &[u8],
    torn: &[u8],
    minimum: u32,
    rooms: &[u8],
    out: &mut [u8],
    log: &mut [u8],
) -> u32
    ensures { OutcomeReplied (crack_outcome bytes.now torn.now minimum rooms.now
        (length log.old)) (length out.old) (length log.old) result out.new log.new }
{
    bench_c::cutting::bench_crack(bytes, torn, minimum, rooms, out, log)
}

// The blade and the mesh image of a sheet.
#[unsafe(no_mangle)]
pub extern "C" fn bench_sheet(sheet: &[u8], out: &mut [u8]) -> u32
    ensures { Replied (sheet_reply sheet.now) (length out.old) result out.new }
{
    bench_c::sheets::bench_sheet(sheet, out)
}

// Opens a reader that is fed a sheet in parts.
#[unsafe(no_mangle)]
pub extern "C" fn bench_sheet_open(reader: &mut [u8]) -> u32
    ensures { OpenDone reader.old result reader.new }
{
    bench_c::sheets::bench_sheet_open(reader)
}

// Feeds it a part.
#[unsafe(no_mangle)]
pub extern "C" fn bench_sheet_feed(reader: &mut [u8], part: &[u8]) -> u32
    ensures { FeedDone reader.old part.now result reader.new }
{
    bench_c::sheets::bench_sheet_feed(reader, part)
}

// Closes it: the blade and the mesh image of the whole sheet.
#[unsafe(no_mangle)]
pub extern "C" fn bench_sheet_close(reader: &mut [u8], out: &mut [u8]) -> u32
    ensures { Closed reader.old reader.new (length out.old) result out.new }
{
    bench_c::sheets::bench_sheet_close(reader, out)
}

// The bytes of the sheet whose fields are words.
#[unsafe(no_mangle)]
pub extern "C" fn bench_sheet_write(fields: &[u8], out: &mut [u8]) -> u32
    ensures { SheetWritten fields.now out.old out.new result }
{
    bench_c::sheets::bench_sheet_write(fields, out)
}

// A broken sheet mended: the mended sheet, what is said, and how many bytes each has.
#[unsafe(no_mangle)]
pub extern "C" fn bench_mend(
    broken: &[u8],
    mended: &mut [u8],
    text: &mut [u8],
    counts: &mut [u8],
) -> u32
    ensures { MendReplied broken.now (length mended.old) (length text.old) (length
        counts.old) result mended.new text.new counts.new }
{
    bench_c::sheets::bench_mend(broken, mended, text, counts)
}

// The listing of the cut of a sheet, as the program prints it.
#[unsafe(no_mangle)]
pub extern "C" fn bench_list_cut(sheet: &[u8], out: &mut [u8]) -> u32
    ensures { TextReplied (listed sheet.now) (length out.old) result out.new }
{
    bench_c::sheets::bench_list_cut(sheet, out)
}

// The differences of two sheets, as the program prints them.
#[unsafe(no_mangle)]
pub extern "C" fn bench_difference(first: &[u8], second: &[u8], out: &mut [u8]) -> u32
    ensures { TextReplied (differed first.now second.now) (length out.old) result out.new }
{
    bench_c::sheets::bench_difference(first, second, out)
}
