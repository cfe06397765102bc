//! The addresses that one end announced: by INIT and INIT ACK (RFC 9260 section 3.3.2.1), and by
//! ASCONF (RFC 5061 section 4.2).

ghost use Rattle.std.specs.Prelude.{◌≡◌, false, not, IsSome, option_map};
ghost use Rattle.dump_associations.specs.Announced.{is_deleted, is_refused, is_settled, with_statement, with_answer, answered, AreAnswered, IsFull};

use dcsctp_borrowed::part::{Item, Part};
use dcsctp_receive::chunk_type::{ASCONF, ASCONF_ACK, INIT, INIT_ACK};
use dcsctp_registry::address::ip_address;
use dcsctp_registry::parameter_layouts::{
    ADD_IP_ADDRESS, DELETE_IP_ADDRESS, ERROR_CAUSE_INDICATION, IPV4_ADDRESS, IPV6_ADDRESS,
    SET_PRIMARY_ADDRESS, SUCCESS_INDICATION,
};
use dcsctp_registry::read::read_parameter;
use dcsctp_wire::packet::init_chunk::InitNumbers;
use dcsctp_wire::packet::parameter::RawParameter;
use dcsctp_wire::packet::read_u32_be;
use dump_packet::{PacketNumber, SeenPacket, increase};
use std::alloc::{AllocError, Global};
use std::net::IpAddr;

/// Bytes of the sequence number of ASCONF and of its answer (RFC 5061 section 4.1), and of a
/// correlation ID (section 4.2).
const NUMBER_SIZE: usize = 4;

/// How many addresses of an end are kept.
const MOST_ADDRESSES: usize = 8;

/// How many requests of an end are kept in their order.
const MOST_REQUESTS: usize = 16;

/// By what an ASCONF ACK answers a request.
#[derive(Clone, Copy)]
pub struct RequestId {
    /// The Sequence Number of its ASCONF (RFC 5061 section 4.1.1).
    pub sequence_number: u32,
    /// Its own ASCONF-Request Correlation ID (RFC 5061 section 4.2).
    pub correlation_id: u32,
}

/// What an ASCONF ACK says of a request.
#[derive(Clone, Copy)]
pub enum Answer {
    /// It succeeded: the number of the ASCONF ACK's packet.
    Accepted(PacketNumber),
    /// It failed.
    Refused,
    /// That isn't known: not all of the ASCONF ACK was captured or can be read, or its packet is
    /// refused.
    Unclear,
}

/// Where an end said something of an address of its own.
#[derive(Clone, Copy)]
pub struct Statement {
    /// The type of the chunk: INIT, INIT ACK or ASCONF.
    pub chunk: u8,
    /// The number of its packet.
    pub packet: PacketNumber,
    /// Which request it is, in an ASCONF.
    pub request: Option<RequestId>,
    /// What the first ASCONF ACK of which it is known says of a request; `None` if there was none.
    pub answer: Option<Answer>,
}

impl Statement {
    /// Returns whether it is a request that the other end refused.
    pub fn is_refused(self) -> bool
        ensures { result ≡ is_refused self.answer }
    {
        matches!(self.answer, Some(Answer::Refused))
    }

    /// Returns whether it is a request of which no ASCONF ACK was seen.
    pub fn is_unanswered(self) -> bool {
        self.request.is_some() && self.answer.is_none()
    }

    /// Returns whether what was asked succeeded or failed isn't known.
    fn is_open(self) -> bool
        ensures { result ≡ not (is_settled self.answer) }
    {
        matches!(self.answer, None | Some(Answer::Unclear))
    }
}

/// What an end says of an address of its own.
#[derive(Clone, Copy)]
enum Topic {
    /// It has it: in INIT or INIT ACK, or by Add IP Address (RFC 5061 section 4.2.1).
    Added,
    /// The other end is to send to it: Set Primary Address (RFC 5061 section 4.2.4).
    Primary,
    /// It gives it up: Delete IP Address (RFC 5061 section 4.2.2).
    Deleted,
}

/// An address, and what its end said of it.
#[derive(Clone, Copy)]
pub struct Announced {
    /// The address.
    pub address: IpAddr,
    /// What added it, if that was seen: the first one that wasn't refused, or the last one that
    /// was.
    pub added: Option<Statement>,
    /// The last one that asked to send to it.
    pub primary: Option<Statement>,
    /// What deleted it: one that wasn't refused, or the last one that was.
    pub deleted: Option<Statement>,
    /// Whether a packet of the end came from it, then or later.
    pub is_used: bool,
}

impl Announced {
    /// Returns an address of which nothing was said.
    fn new(address: IpAddr) -> Announced {
        Announced {
            address,
            added: None,
            primary: None,
            deleted: None,
            is_used: false,
        }
    }

    /// Returns whether it was deleted, and this wasn't refused.
    fn is_deleted(&self) -> bool
        ensures { result ≡ is_deleted self.now }
    {
        match self.deleted {
            Some(deleted) => !deleted.is_refused(),
            None => false,
        }
    }

    /// Returns it with one more statement.
    fn with(self, topic: Topic, statement: Statement) -> Announced
        ensures { result ≡ with_statement topic statement self }
    {
        match topic {
            Topic::Added => self.with_added(statement),
            Topic::Primary => Announced {
                primary: Some(statement),
                ..self
            },
            Topic::Deleted => Announced {
                deleted: Some(statement),
                ..self
            },
        }
    }

    /// Returns it with one more statement that adds it.
    fn with_added(self, statement: Statement) -> Announced
        ensures { result ≡ with_statement Topic.Added statement self }
    {
        match self.added {
            Some(added) if !added.is_refused() => self,
            _ => Announced {
                added: Some(statement),
                ..self
            },
        }
    }

    /// Returns it once the other end answered a request.
    fn answered(self, id: RequestId, answer: Answer) -> Announced
        ensures { result ≡ answered id answer self }
    {
        Announced {
            added: answered_statement(self.added, id, answer),
            primary: answered_statement(self.primary, id, answer),
            deleted: answered_statement(self.deleted, id, answer),
            ..self
        }
    }
}

/// Returns an address as it is known in a slot, or as it begins in an empty one; `None` where the
/// slot is taken, by another address or by one that was deleted.
fn room_for(address: IpAddr, slot: Option<Announced>) -> Option<Announced>
    ensures { result ≡ None → IsSome slot }
{
    let Some(known) = slot else {
        return Some(Announced::new(address));
    };
    if known.address == address && !known.is_deleted() {
        Some(known)
    } else {
        None
    }
}

/// Returns an address, if there is one, once the other end answered a request.
fn answered_address(known: Option<Announced>, id: RequestId, answer: Answer) -> Option<Announced>
    ensures { result ≡ option_map (answered id answer) known }
{
    Some(known?.answered(id, answer))
}

/// Returns a statement once the other end answered a request.
fn answered_statement(
    statement: Option<Statement>,
    id: RequestId,
    answer: Answer,
) -> Option<Statement>
    ensures { result ≡ option_map (with_answer id answer) statement }
{
    let statement = statement?;
    match statement.request {
        Some(request)
            if request.sequence_number == id.sequence_number
                && request.correlation_id == id.correlation_id
                && statement.is_open() => {
            Some(Statement {
                answer: Some(answer),
                ..statement
            })
        }
        _ => Some(statement),
    }
}

/// The addresses of one end of which it said something.
#[derive(Drop)]
pub struct Announcements {
    /// The first ones. One that was deleted, and is added once more, is another one.
    pub list: [Option<Announced>; MOST_ADDRESSES],
    /// How many statements there was no room for, up to 2^64 - 1: the most in an INIT or an INIT
    /// ACK, and those in the ASCONFs after it.
    pub more: u64,
    // the number of the last ASCONF
    sequence_number: Option<u32>,
    // the last requests, of any type, in their order
    requests: [Option<RequestId>; MOST_REQUESTS],
}

impl Announcements {
    /// Returns the addresses of an end that said nothing.
    pub fn new() -> Announcements {
        Announcements {
            list: [None; MOST_ADDRESSES],
            more: 0,
            sequence_number: None,
            requests: [None; MOST_REQUESTS],
        }
    }

    /// Notes what a chunk that this end sent says of its addresses.
    fn note_sent(&mut self, packet: &SeenPacket<'_>, chunk: Item<'_>) {
        match chunk.first {
            INIT | INIT_ACK => self.note_initiation(chunk, packet.number),
            ASCONF => {
                let (source, _) = packet.addresses();
                self.note_requests(chunk.value, packet.number, source);
            }
            _ => {}
        }
    }

    /// Notes what an ASCONF ACK that the other end sent answers. Where it has no response to a
    /// request, this succeeded, unless one before it failed (RFC 5061 section 5.1, rules A7 and
    /// A8).
    fn note_received(&mut self, packet: &SeenPacket<'_>, chunk: Item<'_>) {
        if chunk.value.bytes.len() < NUMBER_SIZE {
            return;
        }
        let sequence_number = read_u32_be(chunk.value.bytes);
        let responses = chunk.value.after(NUMBER_SIZE);
        let is_clear = are_readable(responses) && !packet.is_refused;
        let mut has_failed = false;
        for request in self.requests {
            if let Some(id) = request
                && id.sequence_number == sequence_number
            {
                let answer = match response_to(id, responses, packet.number) {
                    Some(answer) => answer,
                    None if !is_clear => Answer::Unclear,
                    None if has_failed => Answer::Refused,
                    None => Answer::Accepted(packet.number),
                };
                has_failed |= matches!(answer, Answer::Refused);
                self.answer(id, answer);
            }
        }
    }

    /// Notes that a packet of this end came from an address.
    fn note_source(&mut self, source: IpAddr) {
        for slot in self.list.iter_mut() {
            if let Some(known) = slot {
                known.is_used |= known.address == source;
            }
        }
    }

    /// Notes the addresses in an INIT or an INIT ACK.
    fn note_initiation(&mut self, chunk: Item<'_>, packet: PacketNumber) {
        let statement = Statement {
            chunk: chunk.first,
            packet,
            request: None,
            answer: None,
        };
        let mut left_out = 0;
        for parameter in chunk.value.after(InitNumbers::SIZE).items() {
            if let (IPV4_ADDRESS | IPV6_ADDRESS, Some(address)) = (
                parameter.code(),
                address_of(parameter),
            ) {
                if !self.note(address, Topic::Added, statement) {
                    increase(&mut left_out);
                }
            }
        }
        self.more = self.more.max(left_out);
    }

    /// Notes the requests in an ASCONF, in a packet from this source. One with the number of the
    /// one before is that one, sent again.
    fn note_requests(&mut self, value: Part<'_>, packet: PacketNumber, source: Option<IpAddr>) {
        if value.bytes.len() < NUMBER_SIZE {
            return;
        }
        let sequence_number = read_u32_be(value.bytes);
        if self.sequence_number == Some(sequence_number) {
            return;
        }
        self.sequence_number = Some(sequence_number);
        for parameter in value.after(NUMBER_SIZE).items() {
            if let Some(correlation_id) = correlation_id_of(parameter) {
                let id = RequestId {
                    sequence_number,
                    correlation_id,
                };
                self.keep_request(id);
                if let Some((topic, address)) = request(parameter) {
                    let statement = Statement {
                        chunk: ASCONF,
                        packet,
                        request: Some(id),
                        answer: None,
                    };
                    self.note_request(address, topic, statement, source);
                }
            }
        }
    }

    /// Keeps a request as the last one.
    fn keep_request(&mut self, id: RequestId) {
        for i in 1..MOST_REQUESTS {
            self.requests[i - 1] = self.requests[i];
        }
        self.requests[MOST_REQUESTS - 1] = Some(id);
    }

    /// Notes a request in a packet from this source. An address of all zeros is the source,
    /// or where it is deleted, for all others (RFC 5061 sections 4.2.1, 4.2.2 and 4.2.4).
    fn note_request(
        &mut self,
        address: IpAddr,
        topic: Topic,
        statement: Statement,
        source: Option<IpAddr>,
    ) {
        let address = match (source, topic) {
            (Some(source), Topic::Deleted) if address.is_unspecified() => {
                return self.delete_others(source, statement);
            }
            (Some(source), _) if address.is_unspecified() => source,
            _ => address,
        };
        if !self.note(address, topic, statement) {
            increase(&mut self.more);
        }
    }

    /// Returns whether something was said of an address, or maybe was, where one had no room.
    fn may_have_address(&self, address: IpAddr) -> bool {
        for known in &self.list {
            if let Some(known) = known
                && known.address == address
            {
                return true;
            }
        }
        self.more > 0
    }

    /// Notes a statement about an address; returns whether there was room for it.
    fn note(&mut self, address: IpAddr, topic: Topic, statement: Statement) -> bool
        ensures full { result ≡ false → IsFull self.old.list }
        ensures same { result ≡ false → self.new ≡ self.old }
    {
        for i in 0..MOST_ADDRESSES {
            if let Some(known) = room_for(address, self.list[i]) {
                self.list[i] = Some(known.with(topic, statement));
                return true;
            }
        }
        false
    }

    /// Notes that all addresses but one were deleted.
    fn delete_others(&mut self, address: IpAddr, statement: Statement) {
        for slot in self.list.iter_mut() {
            if let Some(known) = *slot {
                if known.address != address && !known.is_deleted() {
                    *slot = Some(known.with(Topic::Deleted, statement));
                }
            }
        }
    }

    /// Notes that the other end answered a request.
    fn answer(&mut self, id: RequestId, answer: Answer)
        ensures { AreAnswered id answer self.old.list self.new.list }
    {
        for i in 0..MOST_ADDRESSES {
            self.list[i] = answered_address(self.list[i], id, answer);
        }
    }
}

/// What an end announced. Memory is taken once it says something of an address: most ends don't.
#[derive(Drop)]
pub struct AnnouncedAddresses(Option<Box<Announcements>>);

impl AnnouncedAddresses {
    /// Returns that of an end that said nothing.
    pub fn new() -> AnnouncedAddresses {
        AnnouncedAddresses(None)
    }

    /// Returns the addresses of which the end said something; `None` if there is none.
    pub fn said(&self) -> Option<&Announcements> {
        match &self.0 {
            Some(said) => Some(said),
            None => None,
        }
    }

    /// Returns whether an address may be one that the end announced: it is kept, or one had no room.
    pub fn may_have_address(&self, address: IpAddr) -> bool {
        match &self.0 {
            Some(said) => said.may_have_address(address),
            None => false,
        }
    }

    /// Takes memory for what a packet of this end says, if it says something of an address: without
    /// it nothing is noted.
    pub fn make_room(&mut self, alloc: Global, packet: &SeenPacket<'_>) -> Result<(), AllocError> {
        if self.0.is_none() && says_something(packet) {
            self.0 = Some(Box::new(alloc, Announcements::new())?);
        }
        Ok(())
    }

    /// Notes what a chunk that this end sent says of its addresses.
    pub fn note_sent(&mut self, packet: &SeenPacket<'_>, chunk: Item<'_>) {
        if let Some(said) = &mut self.0 {
            said.note_sent(packet, chunk);
        }
    }

    /// Notes what a chunk that the other end sent answers.
    pub fn note_received(&mut self, packet: &SeenPacket<'_>, chunk: Item<'_>) {
        if chunk.first != ASCONF_ACK {
            return;
        }
        if let Some(said) = &mut self.0 {
            said.note_received(packet, chunk);
        }
    }

    /// Notes that a packet of this end came from an address.
    pub fn note_source(&mut self, source: Option<IpAddr>) {
        if let (Some(said), Some(source)) = (&mut self.0, source) {
            said.note_source(source);
        }
    }
}

/// Returns whether a packet says something of its sender's addresses: an ASCONF does, and an INIT
/// or an INIT ACK that has one.
fn says_something(packet: &SeenPacket<'_>) -> bool {
    for chunk in packet.chunks() {
        match chunk.first {
            ASCONF => return true,
            INIT | INIT_ACK if has_address(chunk) => return true,
            _ => {}
        }
    }
    false
}

/// Returns whether an INIT or an INIT ACK has an address.
fn has_address(chunk: Item<'_>) -> bool {
    for parameter in chunk.value.after(InitNumbers::SIZE).items() {
        if matches!(parameter.code(), IPV4_ADDRESS | IPV6_ADDRESS) {
            return true;
        }
    }
    false
}

/// Returns the correlation id of a parameter of an ASCONF; `None` if it is no request, but the
/// address by which the association is found (RFC 5061 section 4.1.1), or if it wasn't captured.
fn correlation_id_of(parameter: Item<'_>) -> Option<u32> {
    let value = parameter.value.bytes;
    let is_address = matches!(parameter.code(), IPV4_ADDRESS | IPV6_ADDRESS);
    if is_address || value.len() < NUMBER_SIZE {
        return None;
    }
    Some(read_u32_be(value))
}

/// Returns whether all of these responses were captured, and lie one after the other to the end.
fn are_readable(responses: Part<'_>) -> bool {
    let mut size = 0usize;
    for response in responses.items() {
        size = size.saturating_add(response.padded);
    }
    responses.is_whole() && size >= responses.size
}

/// Returns what the responses in an ASCONF ACK, in a packet with this number, say of a request.
fn response_to(id: RequestId, responses: Part<'_>, packet: PacketNumber) -> Option<Answer> {
    for response in responses.items() {
        let value = response.value.bytes;
        if value.len() >= NUMBER_SIZE && read_u32_be(value) == id.correlation_id {
            match response.code() {
                ERROR_CAUSE_INDICATION => return Some(Answer::Refused),
                SUCCESS_INDICATION => return Some(Answer::Accepted(packet)),
                _ => {}
            }
        }
    }
    None
}

/// Returns the address in a parameter of a registered type, if there is one and all of it was
/// captured.
fn address_of(parameter: Item<'_>) -> Option<IpAddr> {
    if !parameter.value.is_whole() {
        return None;
    }
    let held = read_parameter(&RawParameter {
        typ: parameter.code(),
        value: parameter.value.bytes,
    })?;
    ip_address(held.address()?)
}

/// Returns what a parameter of an ASCONF asks, and the address; `None` if it asks nothing of an
/// address.
fn request(parameter: Item<'_>) -> Option<(Topic, IpAddr)> {
    let topic = match parameter.code() {
        ADD_IP_ADDRESS => Topic::Added,
        DELETE_IP_ADDRESS => Topic::Deleted,
        SET_PRIMARY_ADDRESS => Topic::Primary,
        _ => return None,
    };
    Some((topic, address_of(parameter)?))
}
