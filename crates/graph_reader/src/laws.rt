ghost use Rattle.graph_reader.specs.Laws.{HasOneFault, HasOneTable, ReadHasNoFault, ReadIsTimed, ReadIsWritable, ReadKeepsRules};

use file_text::answers_are_one;

/// The bytes decide whether they have a table, and which, or what their first fault is. A table that is read keeps the rules,
/// and has names that can be written.
pub fn know_files()
    ensures table { HasOneTable }
    ensures fault { HasOneFault }
    ensures either { ReadHasNoFault }
    ensures keeps { ReadKeepsRules }
    ensures timed { ReadIsTimed }
    ensures writable { ReadIsWritable }
{
    answers_are_one();
}
