//! What is asked for a stream.
ghost use Rattle.std.specs.Prelude.{◌≡◌, IfOk};
ghost use Rattle.design_file.specs.Rounded.{control_in, IsTermsOf};

use crate::refusal::{Key, Refusal, Wrong};
use design_text::DesignStream;
use field_units::{BadStream, Misfit, Scale, Time};
use setup_protocol::Control;
use traffic_contract::Contract;

/// What a stream's source may send, and the delay and the jitter that are wanted of its packets, in ticks.
#[derive(Clone, Copy)]
pub struct Terms {
    pub contract: Contract,
    pub control: Control,
    pub delay: u64,
}

/// What is asked for a stream, rounded.
pub fn terms_of(scale: &Scale, stream: &DesignStream) -> Result<Terms, Refusal>
    ensures { IfOk result (IsTermsOf scale.now.tick scale.now.unit stream.now) }
{
    let contract = scale.contract(&stream.source).map_err(refused)?;
    let delay = scale
        .delay(stream.within)
        .map_err(|misfit| at(Key::Within, misfit))?;
    let control = control_of(scale, stream.jitter)?;
    Ok(Terms {
        contract,
        control,
        delay,
    })
}

// How a stream's jitter is controlled.
fn control_of(scale: &Scale, jitter: Option<Time>) -> Result<Control, Refusal>
    ensures { IfOk result (λ control. control ≡ control_in scale.now.tick jitter) }
{
    match jitter {
        None => Ok(Control::Rate),
        Some(wanted) => {
            let ticks = scale
                .jitter(wanted)
                .map_err(|misfit| at(Key::Jitter, misfit))?;
            Ok(Control::Jitter(ticks))
        }
    }
}

/// A number at a key that has none in the scenario.
fn at(key: Key, misfit: Misfit) -> Refusal {
    Refusal::Misfit { key, misfit }
}

/// Why a stream has no contract.
fn refused(bad: BadStream) -> Refusal {
    match bad {
        BadStream::Packets => Refusal::Wrong(Wrong::Packets),
        BadStream::Size(misfit) => at(Key::Size, misfit),
        BadStream::Gap(misfit) => at(Key::Apart, misfit),
    }
}
