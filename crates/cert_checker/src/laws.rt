//! Laws of certificates, each on a function that does nothing.
ghost use Rattle.cert_checker.specs.RateCertificates.{RateIsShown};
ghost use Rattle.cert_checker.specs.StorageCertificates.{RightPointsAreTheFront};
ghost use Rattle.cert_checker.specs.StorageFaults.{RightLinesAreFaultless};
ghost use Rattle.cert_checker.specs.StorageLines.{SpelledLinesFit};

use critical::laws::cycles_bound_the_rate;
use periodic::schedules_bound_the_rate;

/// A periodic schedule and a need cycle that hold on a net, of one ratio, show that it is the rate.
pub fn rate_is_shown()
    ensures { RateIsShown }
{
    schedules_bound_the_rate();
    cycles_bound_the_rate();
}

/// Where all lines of the certificate of a trade-off are right, none is faulty, and its points are the Pareto points up to
/// its limit, all and no others.
pub fn trade_off_is_shown()
    ensures faultless { RightLinesAreFaultless }
    ensures front { RightPointsAreTheFront }
{
    rate_is_shown();
    cycles_bound_the_rate();
}

/// The certificate of a trade-off has no more lines in a version than its text has bytes.
pub fn spelled_lines_fit()
    ensures { SpelledLinesFit }
{}
