ghost use Rattle.sg_lines.specs.Claims.{PartsMakeText, PartsMakeSummary};

/// Tells a proof that the lines of the parts of objects, one behind another, make the text of the objects but for its last line. It
/// runs no code.
pub fn parts_make_the_text()
    ensures { PartsMakeText }
{}

/// Tells a proof that the summary of objects is what their parts come to, so that a listener which adds these up has it. It runs no
/// code.
pub fn parts_make_the_summary()
    ensures { PartsMakeSummary }
{}
