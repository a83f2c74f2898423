// What a host gets that is not made of words: the number of the layout, the text of a sheet's cut, and that of the differences of two sheets.
#![tactic(auto)]

ghost use Rattle.std.specs.Prelude.{◌≡◌, length};
ghost use Rattle.sheetcut.specs.SheetCut.{listed};
ghost use Rattle.differing.specs.Differed.{differed};
ghost use Rattle.text_c.specs.Texts.{layout_number, code_for, TextReplied};

// The number of the layout.
pub fn layout() -> u32
    ensures { result ≡ layout_number }
{
    4
}

// What is answered to a text that was written, or was too long for the lent bytes.
fn code_of(wrote: Option<usize>) -> u32
    ensures { result ≡ code_for wrote }
{
    match wrote {
        None => 4,
        Some(n) => 0,
    }
}

// The listing of the cut of a sheet, as the program prints it.
pub fn list_cut(sheet: &[u8], out: &mut [u8]) -> u32
    ensures { TextReplied (listed sheet.now) (length out.old) result out.new }
{
    code_of(sheetcut::list_cut(sheet, out))
}

// The differences of two sheets, as the program prints them.
pub fn difference(first: &[u8], second: &[u8], out: &mut [u8]) -> u32
    ensures { TextReplied (differed first.now second.now) (length out.old) result out.new }
{
    code_of(differing::list_differences(first, second, out))
}
