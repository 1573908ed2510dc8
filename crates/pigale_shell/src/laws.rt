//! Laws of the text that a run writes: the words and the input decide it, and those of parts make that of the whole.
ghost use Rattle.pigale_shell.specs.OneText.{OneText, OneRefusalLine, OneGraphRefusalLine};
ghost use Rattle.pigale_shell.specs.PartLaws.{TextsJoin, WholeIsPart};

use super::map_jobs::map_jobs_are_lawful;

/// States the law that a run of `count` or `verify` that reads its input to the end writes one text, a function of it.
pub fn one_text()
    ensures { OneText }
{
    verdict_laws::one_figure_verdict();
}

/// States the law that the line that refuses a map is a function of the job, the record and its number.
pub fn one_refusal_line()
    ensures { OneRefusalLine }
{
    map_jobs_are_lawful();
}

/// States the law that a graph is refused by `embed` with one line only.
pub fn one_graph_refusal_line()
    ensures { OneGraphRefusalLine }
{}

/// States the law that the texts of two parts of an input, one behind the other, are the text of both as one part.
pub fn texts_join()
    ensures { TextsJoin }
{}

/// States the law that the text of the only part of an input is the text of a run over the input.
pub fn whole_is_part()
    ensures { WholeIsPart }
{}
