//! Which words name a task.
ghost use Rattle.std.specs.Prelude.{[], ◌∷◌, codes};
ghost use Rattle.clap.specs.Words.{Text};
ghost use Rattle.rds_words.specs.declared.tasks.Task.{Task};
ghost use Rattle.rds_words.specs.Entered.{Names};
ghost use Rattle.rds_words.specs.LeftOut.{
  RunMayLackWords,
  ServeMayLackWords,
  ShowMayLackWords,
  SyncMayLackWords,
  WatchMayLackWords,
};
ghost use Rattle.rds_words.specs.Spelling.{
  OtherCommandsAreRefused,
  OtherWordsAreRefused,
  OtherWordsWithoutOptions,
  WordsMeanTheirSpelling,
  WordsWithoutOptions,
};
ghost use Rattle.rds_words.specs.Task.{task_words};
ghost use Rattle.rds_words.specs.WithOptions.{OptionsMeanTheirSpelling};
ghost use Rattle.rds_words.specs.Written.{AreData, HasNames, IsWritable, words_dashed, words_written};

/// Which words name a task, whatever the program is called: its command and its words in their order, where none of
/// these can be taken for an option, as what begins with a hyphen and a character behind it, and, whatever they begin
/// with, behind two dashes. A path that is left out is the root, but `clear` has `--all` for it.
/// `serve` has one session where it isn't told how many, and `serve` and `sync` give a silent peer 60 seconds where
/// they aren't told how long. `run` serves at 127.0.0.1:7780 where it isn't told where, and meets its peers again after
/// 10 seconds where it isn't told how long. Other options stand before the words, and those of `show` and `run` also
/// behind them. The function does nothing: its contract is these laws.
pub fn word_laws()
    ensures written { (name : Text) (task : Task) → IsWritable task
        → Names (name ∷ words_written task) (task_words task) }
    ensures dashed { (name : Text) (task : Task) → HasNames task
        → Names (name ∷ words_dashed task) (task_words task) }
    ensures all_cleared { (name : Text) (file : Text) → AreData (file ∷ [])
        → Names (name ∷ codes "clear" ∷ file ∷ codes "--all" ∷ []) (codes "clear" ∷ file ∷ [] ∷ codes "--all" ∷ []) }
    ensures show { ShowMayLackWords }
    ensures serve { ServeMayLackWords }
    ensures sync { SyncMayLackWords }
    ensures run { RunMayLackWords }
    ensures watch { WatchMayLackWords }
{}

/// Of a command without options: what stands behind it names a task just where it is spelled so, the task's words in
/// their order, as many as the command takes. They stand by themselves where none can be taken for an option, or with
/// two dashes before some that may be anything. All else is refused there. The same holds of the others but `init` and
/// `clear` where no option is given. Of all that have options: these stand among the words, in any order, before any
/// two dashes, each at most once but `--peer`. What is typed so is no mistake where the command takes so many words,
/// and names just the task that its words and options say, or none; all else is refused. None is said by two or three
/// words of `init` alone, by more than two with `--from`, by two of `--reg`, `--set` and `--counter`, and by `clear`
/// with both a path and `--all`, or neither. What begins with no command's name is refused. The function does nothing:
/// its contract is these laws.
pub fn words_mean_their_spelling()
    ensures words { WordsMeanTheirSpelling }
    ensures other_words { OtherWordsAreRefused }
    ensures without_options { WordsWithoutOptions }
    ensures other_without_options { OtherWordsWithoutOptions }
    ensures options { OptionsMeanTheirSpelling }
    ensures other_commands { OtherCommandsAreRefused }
{}
