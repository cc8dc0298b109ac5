//! What lines mean, told by how they are spelled.
ghost use Rattle.rds_json.specs.Meaning.{EditsMeanTheirSpelling, LinesMeanTheirSpelling, OtherEditsAreBad, OtherLinesAreBad};

/// A text is read as a line just where it is that line's JSON, whatever spaces and escapes it is written with: the
/// array of the line's word and of its parts in their order, each as it is spelled by itself, none more and none
/// fewer. So no two lines share a text. A text that is no array, or begins with none of the words, is refused
/// (`BadLine`). The same holds of edits that name no replica. The function does nothing: its contract is these laws.
pub fn lines_mean_their_spelling()
    ensures lines { LinesMeanTheirSpelling }
    ensures edits { EditsMeanTheirSpelling }
    ensures other_lines { OtherLinesAreBad }
    ensures other_edits { OtherEditsAreBad }
{}
