//! The laws of the definitions, which are proved and do nothing. That of a packet is in `packets`.

use dcsctp_wire::laws;
use dcsctp_wire::packet::chunk::Chunk;
use dcsctp_wire::packet::parameter::Parameter;
use dcsctp_wire::types::{Ssn, Tsn};

#[test]
fn hold() {
    laws::one_answer();
    laws::reading_is_local();
    laws::strict_is_lenient();
    laws::image_size::<Chunk>();
    laws::image_size::<Parameter>();
    laws::init_size();
    laws::equality();
    laws::clones();
    laws::constants();
    laws::types::window::<Tsn>();
    laws::types::window::<Ssn>();
    laws::types::orders();
    laws::types::equality();
    laws::types::clones();
    laws::types::methods();
    laws::types::webrtc_ppids();
}
