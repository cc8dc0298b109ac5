//! The word that a line begins with.
ghost use Rattle.std.specs.Prelude.{◌≡◌};
ghost use Rattle.rds_json.specs.Verb.{verb_of};

/// The word of a line.
#[derive(Clone, Copy, Debug, PartialEq, Eq)]
pub enum Verb {
    Roster,
    Edit(EditVerb),
    Save,
    Crash,
    Ask,
    Answer,
    Take,
    Grow,
    Show,
}

/// The word of an edit.
#[derive(Clone, Copy, Debug, PartialEq, Eq)]
pub enum EditVerb {
    Set,
    Add,
    Del,
    Clear,
    Inc,
    Dec,
}

/// The verb with this text.
pub fn verb_of(word: &str) -> Option<Verb>
    ensures { result ≡ verb_of word.now }
{
    match word {
        "roster" => Some(Verb::Roster),
        "set" => Some(Verb::Edit(EditVerb::Set)),
        "add" => Some(Verb::Edit(EditVerb::Add)),
        "del" => Some(Verb::Edit(EditVerb::Del)),
        "clear" => Some(Verb::Edit(EditVerb::Clear)),
        "inc" => Some(Verb::Edit(EditVerb::Inc)),
        "dec" => Some(Verb::Edit(EditVerb::Dec)),
        "save" => Some(Verb::Save),
        "crash" => Some(Verb::Crash),
        "ask" => Some(Verb::Ask),
        "answer" => Some(Verb::Answer),
        "take" => Some(Verb::Take),
        "grow" => Some(Verb::Grow),
        "show" => Some(Verb::Show),
        _ => None,
    }
}
