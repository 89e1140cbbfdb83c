//! Whether a tick and a unit serve a design.
ghost use Rattle.std.specs.Prelude.{◌≡◌};
ghost use Rattle.std.specs.List.{list_all};
ghost use Rattle.field_units.specs.Serving.{pair_of};
ghost use Rattle.design_scale.specs.Serving.{serves as serves_pair, keeps_link as keeps_a_link, keeps_stream as keeps_a_stream, keeps_share as keeps_a_share, keeps_pour as keeps_a_pour, keeps_level, keeps_wanted as keeps_a_wanted, has_propagation as has_a_propagation};

use design_text::{Design, DesignLink, DesignPour, DesignQuota, DesignStream};
use field_units::{Scale, Time};

/// Whether each number of a design loses at most one part in `parts`, and the ticks of a run of this time over all links are within a
/// scenario's limit.
#[tactic(auto, unfolding(crate::specs::Serving::serves))]
pub fn serves(scale: &Scale, parts: u64, run: Time, design: &Design) -> bool
    ensures { result ≡ serves_pair parts run design.now (pair_of scale.now) }
{
    scale.fits_run(run, design.links.len() as u64)
        && keep_links(scale, parts, &design.links)
        && keep_streams(scale, parts, &design.streams)
        && keep_pours(scale, parts, &design.pours)
}

// Whether the numbers of all links are kept.
fn keep_links(scale: &Scale, parts: u64, links: &[DesignLink]) -> bool
    ensures { result ≡ list_all (keeps_a_link parts (pair_of scale.now)) links.now }
{
    links.iter().all(|link| keeps_link(scale, parts, link))
}

// Whether the numbers of all streams are kept.
fn keep_streams(scale: &Scale, parts: u64, streams: &[DesignStream]) -> bool
    ensures { result ≡ list_all (keeps_a_stream parts (pair_of scale.now)) streams.now }
{
    streams
        .iter()
        .all(|stream| keeps_stream(scale, parts, stream))
}

// Whether the packets of all best-effort streams are kept.
fn keep_pours(scale: &Scale, parts: u64, pours: &[DesignPour]) -> bool
    ensures { result ≡ list_all (keeps_a_pour parts (pair_of scale.now)) pours.now }
{
    pours.iter().all(|pour| keeps_pour(scale, parts, pour))
}

// Whether the packets of a best-effort stream are kept.
#[tactic(auto, unfolding(crate::specs::Serving::keeps_pour))]
fn keeps_pour(scale: &Scale, parts: u64, pour: &DesignPour) -> bool
    ensures { result ≡ keeps_a_pour parts (pair_of scale.now) pour.now }
{
    scale.keeps_size(pour.size, parts)
}

// Whether the numbers of a link are kept.
#[tactic(auto, unfolding(crate::specs::Serving::keeps_link))]
fn keeps_link(scale: &Scale, parts: u64, link: &DesignLink) -> bool
    ensures { result ≡ keeps_a_link parts (pair_of scale.now) link.now }
{
    scale.keeps_rate(link.rate, parts)
        && scale.keeps_size(link.largest, parts)
        && scale.keeps_room(link.buffer, parts)
        && has_propagation(scale, link.latency)
        && keep_levels(scale, parts, &link.levels)
        && keep_shares(scale, parts, &link.quotas)
}

// Whether the numbers of all shares of a link are kept.
fn keep_shares(scale: &Scale, parts: u64, quotas: &[DesignQuota]) -> bool
    ensures { result ≡ list_all (keeps_a_share parts (pair_of scale.now)) quotas.now }
{
    quotas.iter().all(|quota| keeps_share(scale, parts, quota))
}

// Whether the numbers of a share are kept.
#[tactic(auto, unfolding(crate::specs::Serving::keeps_share))]
fn keeps_share(scale: &Scale, parts: u64, quota: &DesignQuota) -> bool
    ensures { result ≡ keeps_a_share parts (pair_of scale.now) quota.now }
{
    scale.keeps_room(quota.buffer, parts) && keep_levels(scale, parts, &quota.levels)
}

// Whether the bounds of all levels are kept.
fn keep_levels(scale: &Scale, parts: u64, levels: &[Time]) -> bool
    ensures { result ≡ list_all (keeps_level scale.now.tick parts) levels.now }
{
    levels.iter().all(|level| scale.keeps_bound(*level, parts))
}

// Whether a latency has its propagation.
fn has_propagation(scale: &Scale, latency: Time) -> bool
    ensures { result ≡ has_a_propagation scale.now.tick latency }
{
    scale.propagation(latency).is_ok()
}

// Whether the numbers of a stream are kept.
#[tactic(auto, unfolding(crate::specs::Serving::keeps_stream))]
fn keeps_stream(scale: &Scale, parts: u64, stream: &DesignStream) -> bool
    ensures { result ≡ keeps_a_stream parts (pair_of scale.now) stream.now }
{
    scale.keeps_size(stream.source.size, parts)
        && scale.keeps_gap(&stream.source, parts)
        && scale.keeps_window(&stream.source, parts)
        && scale.keeps_delay(stream.within, parts)
        && keeps_wanted(scale, parts, stream.jitter)
}

// Whether a jitter that is wanted is kept.
#[tactic(auto, unfolding(crate::specs::Serving::keeps_wanted))]
fn keeps_wanted(scale: &Scale, parts: u64, jitter: Option<Time>) -> bool
    ensures { result ≡ keeps_a_wanted scale.now.tick parts jitter }
{
    match jitter {
        None => true,
        Some(wanted) => scale.keeps_jitter(wanted, parts),
    }
}
