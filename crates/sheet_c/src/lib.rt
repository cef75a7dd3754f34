// A whole sheet, for a program in C or Rust: `sheet::answer_text` as an archive's call.
#![tactic(auto)]

ghost use Rattle.lister.specs.Listing.{Listed};
ghost use Rattle.sheet.specs.Answering.{answer_to};

// The whole output for a text: how many bytes were written. lister::LISTING_BYTES are enough for every output.
#[unsafe(no_mangle)]
pub extern "C" fn sheet_answer(text: &[u8], out: &mut [u8]) -> usize
    ensures { Listed (answer_to text.now) out.old out.new result }
{
    sheet::answer_text(text, out)
}
