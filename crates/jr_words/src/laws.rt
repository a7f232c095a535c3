//! What holds of each command line.
ghost use Rattle.jr_words.specs.Words.{MeanOneAtMost};

/// No words mean two commands.
pub fn words_mean_one_command()
    ensures { MeanOneAtMost }
{}
