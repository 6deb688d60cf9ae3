ghost use Rattle.scenario_reader.specs.ScenarioFiles.{HasOneFile, HasOneFileFault, ReadFileHasNoFault, ReadFileIsWritable, ReadFileKeepsRules};

use file_text::answers_are_one;

/// The bytes decide whether they have a file of scenarios, and which, or what their first fault is. A file that is read keeps the
/// rules, and has names that can be written.
pub fn know_scenario_files()
    ensures file { HasOneFile }
    ensures fault { HasOneFileFault }
    ensures either { ReadFileHasNoFault }
    ensures keeps { ReadFileKeepsRules }
    ensures writable { ReadFileIsWritable }
{
    answers_are_one();
}
