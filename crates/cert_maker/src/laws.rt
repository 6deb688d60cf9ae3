//! Laws of certificates, each on a function that does nothing.
ghost use Rattle.cert_maker.specs.ValidCertificates.{RatesAreValid};
ghost use Rattle.cert_maker.specs.ValidTradeOffs.{TradeOffsAreValid};
ghost use Rattle.cert_maker.specs.ValidWorstRates.{WorstRatesAreValid};

use critical::laws::cycles_bound_the_rate;

/// The certificate of a schedule and a need cycle that show a rate is valid.
pub fn rate_certificates_are_valid()
    ensures { RatesAreValid }
{}

/// The certificate of an exploration with schedules that reach its points is valid.
pub fn storage_certificates_are_valid()
    ensures { TradeOffsAreValid }
{
    cycles_bound_the_rate();
}

/// The certificate of a critical cycle and potentials that show a worst rate is valid.
pub fn worst_certificates_are_valid()
    ensures { WorstRatesAreValid }
{}
