//! The page of a network, and one of its pictures alone.
use network_pages::page_of;
use network_pictures::{NetworkFacts, delays_picture, links_picture, network_picture};
use std::alloc::{AllocError, Global};

/// A picture.
#[derive(Clone, Copy, Debug, PartialEq, Eq)]
pub enum Picture {
    /// The delay of each request: promised or offered, and wanted.
    Delays,
    /// The load of each link.
    Links,
    /// The network as a drawing.
    Network,
}

/// The picture of this name.
pub fn picture_named(name: &str) -> Option<Picture> {
    match name {
        "delays" => Some(Picture::Delays),
        "links" => Some(Picture::Links),
        "network" => Some(Picture::Network),
        _ => None,
    }
}

/// The page of a network.
pub fn page_text(alloc: Global, facts: &NetworkFacts) -> Result<String, AllocError> {
    let bytes = page_of(alloc, facts)?;
    String::from_utf8_lossy(alloc, bytes.as_slice())
}

/// A picture of a network.
pub fn picture_text(
    alloc: Global,
    facts: &NetworkFacts,
    picture: Picture,
) -> Result<String, AllocError> {
    let markup = match picture {
        Picture::Delays => delays_picture(alloc, facts)?,
        Picture::Links => links_picture(alloc, facts)?,
        Picture::Network => network_picture(alloc, facts)?,
    };
    let bytes = markup.into_bytes();
    String::from_utf8_lossy(alloc, bytes.as_slice())
}
