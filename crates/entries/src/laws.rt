// What holds of every entry text, apart from any reader.
ghost use Rattle.entries.specs.Written.{WrittenEntry, Lawful, WrittenReadsBack};

// The text that the format writes for a lawful entry reads back as that entry.
#[tactic(auto, using(crate::proofs::EntryTexts::written_text))]
pub fn written_text_reads_back()
    ensures { (e : WrittenEntry) → Lawful e → WrittenReadsBack e }
{}
