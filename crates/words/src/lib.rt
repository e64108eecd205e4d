// Numbers as bytes, the high byte first. std's `to_be_bytes` writes them and `from_be_bytes` reads them.
#![tactic(auto)]

ghost use Rattle.words.specs.Facts.{BytesFacts, WordsFacts};

// That std's methods write and read these, for the check to ask for the proofs.
fn facts_stand()
    ensures bytes { BytesFacts }
    ensures words { WordsFacts }
{}
