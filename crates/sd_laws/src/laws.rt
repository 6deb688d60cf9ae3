ghost use Rattle.sd_laws.specs.AcceptedCertificates.{PutsAreAccepted};
ghost use Rattle.sd_laws.specs.FastestPoints.{FastestPointsAreLast};
ghost use Rattle.sd_laws.specs.KeptOrders.{OrdersAreKept};
ghost use Rattle.sd_laws.specs.PutCertificates.{PutsAreValid};
ghost use Rattle.sd_laws.specs.PutExpansions.{ExpansionsAreRead};
ghost use Rattle.sd_laws.specs.Endings.{CheckIsComplete, CompleteIsComplete, ConvertIsComplete, DueIsAnswered, DueIsOne, ElseIsDone, ExpandIsComplete, GenerateIsComplete, OrderedIsComplete, RepetitionIsComplete, ScenarioIsComplete, ScenarioStorageIsComplete, StorageIsComplete, ThroughputIsComplete};

use balance::one_answer;
use cert_maker::laws::storage_certificates_are_valid;
use explore::laws::points_to_the_greatest_rate_are_all;
use graph_reader::know_files;
use lasso::one_ending;
use ordered::laws::{
    named_orders_fit, ordered_nets_are_lawful, ordered_nets_have_the_greatest_rate,
};
use scenario_reader::know_scenario_files;
use sd_base::laws::{
    blocking_counts_bound_each_schedule, ending_counts_are_one, file_nets_are_lawful,
};
use token_matrix::matrices_are_one;

/// The words and files decide how a run ends, but for faults and want of memory; and what is put beside a rate, a
/// trade-off or a worst rate is valid, and accepted by `check`. The rate by orders is the greatest of the schedules that keep them.
/// What `expand` puts is read as the expansion. The points of a trade-off to the fastest one are those of every greater limit.
pub fn know_endings()
    ensures one { DueIsOne }
    ensures due { DueIsAnswered }
    ensures done { ElseIsDone }
    ensures repetition { RepetitionIsComplete }
    ensures throughput { ThroughputIsComplete }
    ensures storage { StorageIsComplete }
    ensures scenario { ScenarioIsComplete }
    ensures scenario_storage { ScenarioStorageIsComplete }
    ensures generate { GenerateIsComplete }
    ensures valid { PutsAreValid }
    ensures accepted { PutsAreAccepted }
    ensures check { CheckIsComplete }
    ensures convert { ConvertIsComplete }
    ensures expand { ExpandIsComplete }
    ensures read { ExpansionsAreRead }
    ensures ordered { OrderedIsComplete }
    ensures orders { OrdersAreKept }
    ensures complete { CompleteIsComplete }
    ensures fastest { FastestPointsAreLast }
{
    know_files();
    know_scenario_files();
    matrices_are_one();
    one_answer();
    file_nets_are_lawful();
    ending_counts_are_one();
    blocking_counts_bound_each_schedule();
    storage_certificates_are_valid();
    points_to_the_greatest_rate_are_all();
    one_ending();
    ordered_nets_are_lawful();
    ordered_nets_have_the_greatest_rate();
    named_orders_fit();
}
