//! Parts of traces that several tests have.

use std::alloc::{AllocError, Global};

/// Two nodes of four frames, and process 1, which may use both.
pub(crate) const TWO_NODES: &str =
    "{\"version\":1,\"machine\":{\"nodes\":[4,4],\"distance\":[[10,20],[20,10]]},\"steps\":[
{\"op\":\"spawn\",\"pid\":1,\"uid\":100,\"home\":0,\"allowed\":[0,1]}";

/// Three nodes, the second of which has one frame, and process 1, which may use all.
pub(crate) const THREE_NODES: &str =
    "{\"version\":1,\"machine\":{\"nodes\":[4,1,4],\"distance\":[[10,20,20],[20,10,20],[20,20,10]]},\"steps\":[
{\"op\":\"spawn\",\"pid\":1,\"uid\":100,\"home\":0,\"allowed\":[0,1,2]}";

/// Process 1 writes two pages.
pub(crate) const TWO_PAGES: &str = "{\"op\":\"map\",\"pid\":1,\"addr\":65536,\"pages\":2},
{\"op\":\"write\",\"pid\":1,\"addr\":65536,\"data\":\"61\"},
{\"op\":\"write\",\"pid\":1,\"addr\":69632,\"data\":\"62\"}";

/// Process 1 writes three pages.
pub(crate) const THREE_PAGES: &str = "{\"op\":\"map\",\"pid\":1,\"addr\":65536,\"pages\":3},
{\"op\":\"write\",\"pid\":1,\"addr\":65536,\"data\":\"61\"},
{\"op\":\"write\",\"pid\":1,\"addr\":69632,\"data\":\"62\"},
{\"op\":\"write\",\"pid\":1,\"addr\":73728,\"data\":\"63\"}";

/// Process 1 has five pages, of which it writes four.
pub(crate) const FOUR_OF_FIVE_PAGES: &str = "{\"op\":\"map\",\"pid\":1,\"addr\":65536,\"pages\":5},
{\"op\":\"write\",\"pid\":1,\"addr\":65536,\"data\":\"61\"},
{\"op\":\"write\",\"pid\":1,\"addr\":69632,\"data\":\"62\"},
{\"op\":\"write\",\"pid\":1,\"addr\":73728,\"data\":\"63\"},
{\"op\":\"write\",\"pid\":1,\"addr\":77824,\"data\":\"64\"}";

/// Processes 1 and 2 see one page; process 3 is privileged.
pub(crate) const PAGE_OF_TWO: &str =
    "{\"op\":\"spawn\",\"pid\":2,\"uid\":200,\"home\":1,\"allowed\":[0,1]},
{\"op\":\"spawn\",\"pid\":3,\"uid\":300,\"home\":0,\"allowed\":[0,1],\"privileged\":true},
{\"op\":\"map\",\"pid\":1,\"addr\":131072,\"pages\":1,\"shared\":true},
{\"op\":\"write\",\"pid\":1,\"addr\":131072,\"data\":\"61\"},
{\"op\":\"attach\",\"pid\":2,\"addr\":196608,\"segment\":0,\"offset\":0,\"pages\":1},
{\"op\":\"read\",\"pid\":2,\"addr\":196608,\"len\":1}";

/// Looks at process 1 and the two nodes.
pub(crate) const LOOK_AT_TWO: &str = "{\"op\":\"pagemap\",\"pid\":1},
{\"op\":\"free\",\"node\":0},
{\"op\":\"free\",\"node\":1},
{\"op\":\"vmstat\"}";

/// Looks at process 1 and the three nodes.
pub(crate) const LOOK_AT_THREE: &str = "{\"op\":\"pagemap\",\"pid\":1},
{\"op\":\"free\",\"node\":0},
{\"op\":\"free\",\"node\":1},
{\"op\":\"free\",\"node\":2},
{\"op\":\"vmstat\"}";

/// The trace of these parts, the first of which begins it and the last of which ends it, with commas between them.
pub(crate) fn trace_text(alloc: Global, parts: &[&str]) -> Result<String, AllocError> {
    let mut text = String::new(alloc);
    for part in parts {
        if !text.is_empty() {
            text.push_str(",\n")?;
        }
        text.push_str(part)?;
    }
    Ok(text)
}
