// Single calls: what no command reaches yet, and readers and writers that move few bytes at a time.
use crate::chains::try_chains;
use crate::look_ups::try_look_ups;
use crate::markers::try_markers;
use crate::names::try_names;
use crate::outside::try_outside;
use crate::settings::try_settings;
use crate::streams::try_streams;
use cdk_tally::Tally;
use std::alloc::{AllocError, Global};

/// Tries each call once, and ends the group.
pub fn try_calls(alloc: Global, tally: &mut Tally) -> Result<(), AllocError> {
    try_names(alloc, tally)?;
    try_markers(alloc, tally)?;
    try_settings(alloc, tally)?;
    try_look_ups(alloc, tally)?;
    try_chains(alloc, tally)?;
    try_outside(alloc, tally)?;
    try_streams(alloc, tally)?;
    tally.end("calls")
}
