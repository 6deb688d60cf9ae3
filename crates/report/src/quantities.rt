ghost use Rattle.std.specs.Prelude.{◌≡◌};
ghost use Rattle.report.specs.QuantityWords.{quantity_text};

use sd_base::Quantity;

/// The word by which lines name a quantity.
#[tactic(auto, unfolding(crate::specs::QuantityWords::quantity_text))]
pub fn quantity_word(quantity: Quantity) -> &'static str
    ensures { result.now ≡ quantity_text quantity }
{
    match quantity {
        Quantity::FileBytes => "file bytes",
        Quantity::CertificateBytes => "certificate bytes",
        Quantity::Depth => "depth",
        Quantity::NameBytes => "name bytes",
        Quantity::Actors => "actors",
        Quantity::Channels => "channels",
        Quantity::Ports => "ports",
        Quantity::Phases => "phases",
        Quantity::Rate => "rate",
        Quantity::Tokens => "tokens",
        Quantity::Size => "size",
        Quantity::Time => "time",
        Quantity::Ratio => "ratio",
        Quantity::Round => "round",
        Quantity::Starts => "starts",
        Quantity::Scenarios => "scenarios",
        Quantity::AutomatonStates => "automaton states",
        Quantity::Nodes => "nodes",
        Quantity::Stamps => "stamps",
        Quantity::Edges => "edges",
        Quantity::OrderPairs => "order pairs",
        Quantity::CertificateNumber => "certificate number",
    }
}
