//! SETTINGS frames (RFC 9114, section 7.2.4).
ghost use Rattle.std.specs.Prelude.{◌≡◌, ◌↔◌, ◌≤◌, ◌++◌, length, IfErr, IfSome, IfOk, IsTrue, OnOk, Some, None, Ok, ◌⊎◌};
ghost use Rattle.std.specs.Option.{option_map};
ghost use Rattle.wt_message.specs.Settings.{AreSmall, IsSmall, known_setting, no_settings, option_bytes, pairs_from, setting, setting_number, settings_bytes, settings_of, with_pair, with_setting};
ghost use Rattle.wt_message.specs.SettingPair.{ParsedPair, pair_at};
ghost use Rattle.wt_message.specs.FixedBytes.{local_settings};
ghost use Rattle.wt_wire.specs.declared.error.ErrorCode.TheVariants as errors;
ghost use Rattle.wt_wire.specs.declared.frame.FrameKind.TheVariants as kinds;
ghost use Rattle.wt_message.specs.declared.settings.SettingId.TheVariants as ids;

use std::alloc::Global;
use std::marker::Model;
use wt_wire::error::{ErrorCode, OutOfMemory};
use wt_wire::frame::Frame;
use wt_wire::varint::{VarInt, read_varint, write_varint};

/// The settings that are known here.
#[derive(Clone, Copy, Debug, PartialEq, Eq)]
pub enum SettingId {
    /// 0x01, SETTINGS_QPACK_MAX_TABLE_CAPACITY (RFC 9204, section 5).
    QPackMaxTableCapacity = 0x01,
    /// 0x06, SETTINGS_MAX_FIELD_SECTION_SIZE (RFC 9114, section 7.2.4.1).
    MaxFieldSectionSize = 0x06,
    /// 0x07, SETTINGS_QPACK_BLOCKED_STREAMS (RFC 9204, section 5).
    QPackBlockedStreams = 0x07,
    /// 0x08, SETTINGS_ENABLE_CONNECT_PROTOCOL (RFC 9220, section 3).
    EnableConnectProtocol = 0x08,
    /// 0x33, SETTINGS_H3_DATAGRAM (RFC 9297, section 2.1.1).
    H3Datagram = 0x33,
    /// 0x2b603742, SETTINGS_ENABLE_WEBTRANSPORT of draft-ietf-webtrans-http3.
    EnableWebTransport = 0x2b60_3742,
    /// 0xc671706a, SETTINGS_WEBTRANSPORT_MAX_SESSIONS of draft-ietf-webtrans-http3.
    WebTransportMaxSessions = 0xc671_706a,
}

/// The known settings of a SETTINGS frame (RFC 9114, section 7.2.4), each with its value or absent.
#[derive(Clone, Copy, Debug, PartialEq, Eq)]
pub struct Settings {
    qpack_max_table_capacity: Option<VarInt>,
    max_field_section_size: Option<VarInt>,
    qpack_blocked_streams: Option<VarInt>,
    enable_connect_protocol: Option<VarInt>,
    h3_datagram: Option<VarInt>,
    enable_webtransport: Option<VarInt>,
    webtransport_max_sessions: Option<VarInt>,
}

/// An id, its value, and how many bytes they take.
#[derive(Clone, Copy)]
struct IdAndValue {
    id: VarInt,
    value: VarInt,
    len: usize,
}

#[tactic(auto, unfolding(crate::specs::SettingPair::pair_at))]
fn read_pair(bytes: &[u8]) -> Option<IdAndValue>
    ensures value { option_map (λ p. record { id = p.id; value = p.value; len = p.len }) result ≡ pair_at bytes.now }
    ensures within { IfSome result (λ p. p.len ≤ length bytes.now) }
    ensures some { IfSome result (λ p. 1 ≤ p.len) }
{
    let (id, offset) = read_varint(bytes)?;
    let (value, len) = read_varint(&bytes[offset..])?;
    Some(IdAndValue {
        id,
        value,
        len: offset + len,
    })
}

fn known_setting(id: u64) -> Option<SettingId>
    ensures { result ≡ known_setting id }
{
    match id {
        0x01 => Some(SettingId::QPackMaxTableCapacity),
        0x06 => Some(SettingId::MaxFieldSectionSize),
        0x07 => Some(SettingId::QPackBlockedStreams),
        0x08 => Some(SettingId::EnableConnectProtocol),
        0x33 => Some(SettingId::H3Datagram),
        0x2b60_3742 => Some(SettingId::EnableWebTransport),
        0xc671_706a => Some(SettingId::WebTransportMaxSessions),
        _ => None,
    }
}

fn write_setting(out: &mut Vec<u8>, id: SettingId, value: Option<VarInt>) -> Result<(), OutOfMemory>
    ensures bytes { OnOk result (out.new.items ≡ out.old.items ++ option_bytes (setting_number id) value) }
    ensures small { OnOk result (IsSmall value) }
{
    let Some(value) = value else {
        return Ok(());
    };
    write_varint(VarInt::from_u32(id as u32), out)?;
    write_varint(value, out)
}

fn is_same_value(value: Option<VarInt>, other: Option<VarInt>) -> bool
    ensures { IsTrue result ↔ (value ≡ other) }
{
    value == other
}

impl Settings {
    /// Settings of which none is there.
    fn none() -> Settings
        ensures { result ≡ no_settings }
    {
        Settings {
            qpack_max_table_capacity: None,
            max_field_section_size: None,
            qpack_blocked_streams: None,
            enable_connect_protocol: None,
            h3_datagram: None,
            enable_webtransport: None,
            webtransport_max_sessions: None,
        }
    }

    /// Begins settings of which none is there.
    pub fn builder() -> SettingsBuilder
        ensures { result ≡ no_settings }
    {
        SettingsBuilder {
            settings: Settings::none(),
        }
    }

    /// The settings that this end sends: no dynamic table of QPACK and no blocked streams, extended
    /// CONNECT, HTTP/3 datagrams, WebTransport, and at most 4 sessions at a time.
    pub fn local() -> Settings
        ensures { result ≡ local_settings }
    {
        Settings::builder()
            .qpack_max_table_capacity(VarInt::from_u32(0))
            .qpack_blocked_streams(VarInt::from_u32(0))
            .enable_connect_protocol()
            .enable_webtransport()
            .enable_h3_datagrams()
            .webtransport_max_sessions(VarInt::from_u32(4))
            .build()
    }

    /// The value of a setting; `None` exactly where it is absent.
    pub fn get(&self, id: SettingId) -> Option<VarInt>
        ensures { result ≡ setting self.now id }
    {
        match id {
            SettingId::QPackMaxTableCapacity => self.qpack_max_table_capacity,
            SettingId::MaxFieldSectionSize => self.max_field_section_size,
            SettingId::QPackBlockedStreams => self.qpack_blocked_streams,
            SettingId::EnableConnectProtocol => self.enable_connect_protocol,
            SettingId::H3Datagram => self.h3_datagram,
            SettingId::EnableWebTransport => self.enable_webtransport,
            SettingId::WebTransportMaxSessions => self.webtransport_max_sessions,
        }
    }

    /// Whether both have the same settings, each with the same value.
    pub fn is_equal(&self, other: &Settings) -> bool
        ensures { IsTrue result ↔ (self.now ≡ other.now) }
    {
        is_same_value(
            self.qpack_max_table_capacity,
            other.qpack_max_table_capacity,
        ) && is_same_value(self.max_field_section_size, other.max_field_section_size)
            && is_same_value(self.qpack_blocked_streams, other.qpack_blocked_streams)
            && is_same_value(self.enable_connect_protocol, other.enable_connect_protocol)
            && is_same_value(self.h3_datagram, other.h3_datagram)
            && is_same_value(self.enable_webtransport, other.enable_webtransport)
            && is_same_value(
                self.webtransport_max_sessions,
                other.webtransport_max_sessions,
            )
    }

    fn set(&mut self, id: SettingId, value: VarInt)
        ensures { self.new ≡ with_setting id (Some value) self.old }
    {
        let value = Some(value);
        match id {
            SettingId::QPackMaxTableCapacity => self.qpack_max_table_capacity = value,
            SettingId::MaxFieldSectionSize => self.max_field_section_size = value,
            SettingId::QPackBlockedStreams => self.qpack_blocked_streams = value,
            SettingId::EnableConnectProtocol => self.enable_connect_protocol = value,
            SettingId::H3Datagram => self.h3_datagram = value,
            SettingId::EnableWebTransport => self.enable_webtransport = value,
            SettingId::WebTransportMaxSessions => self.webtransport_max_sessions = value,
        }
    }

    #[tactic(auto, unfolding(crate::specs::Settings::with_pair))]
    fn with_pair(mut self, id: VarInt, value: VarInt) -> Result<Settings, ErrorCode>
        ensures settings { result ≡ with_pair self id value }
        ensures error { IfErr result (λ e. e ≡ errors.Settings) }
    {
        let id = id.into_inner();
        // Ids that HTTP/2 used and HTTP/3 reserves: they must not come (RFC 9114, section 7.2.4.1).
        if id == 0 || (1 < id && id < 6) {
            return Err(ErrorCode::Settings);
        }
        // A setting that isn't known must be ignored (RFC 9114, section 7.2.4), so that new ones can be
        // tried; a repeated one among them too, since nothing is kept of it.
        let Some(known) = known_setting(id) else {
            return Ok(self);
        };
        // An id must not come twice in one frame (RFC 9114, section 7.2.4).
        if self.get(known).is_some() {
            return Err(ErrorCode::Settings);
        }
        self.set(known, value);
        Ok(self)
    }

    /// The settings of a SETTINGS frame's payload (RFC 9114, section 7.2.4): Frame where its bytes end
    /// inside a pair, Settings where an id is reserved or a known one is repeated.
    #[tactic(auto, using(crate::proofs::PairLaws::pairs_end, crate::proofs::PairLaws::pairs_cut))]
    pub fn with_payload(payload: &[u8]) -> Result<Settings, ErrorCode>
        ensures settings { result ≡ settings_of payload.now }
        ensures error { IfErr result (λ e. (e ≡ errors.Frame) ⊎ (e ≡ errors.Settings)) }
    {
        let mut settings = Settings::none();
        let mut offset = 0;
        while offset < payload.len() {
            // A pair is judged once it is whole, so a cut one is a fault of the frame, whatever its id.
            let Some(pair) = read_pair(&payload[offset..]) else {
                return Err(ErrorCode::Frame);
            };
            match settings.with_pair(pair.id, pair.value) {
                Ok(added) => settings = added,
                Err(error) => return Err(error),
            }
            offset += pair.len;
        }
        Ok(settings)
    }

    /// Reads the frame's payload as pairs of an id and a value. The error is that of the first
    /// pair at fault: `Frame` where it is cut, and `Settings` where its id is reserved (0 and from
    /// 2 to 5), or known and there before. Unknown ids are skipped.
    pub fn with_frame(frame: &Frame) -> Result<Settings, ErrorCode>
        ensures settings { result ≡ settings_of frame.now.payload }
        ensures error { IfErr result (λ e. (e ≡ errors.Frame) ⊎ (e ≡ errors.Settings)) }
    {
        Settings::with_payload(frame.payload())
    }

    fn payload(&self, alloc: Global) -> Result<Vec<u8>, OutOfMemory>
        ensures bytes { IfOk result (λ v. v.items ≡ settings_bytes self.now) }
        ensures small { OnOk result (AreSmall self.now) }
    {
        let mut out = Vec::new(alloc);
        let max_sessions = self.webtransport_max_sessions;
        write_setting(
            &mut out,
            SettingId::QPackMaxTableCapacity,
            self.qpack_max_table_capacity,
        )?;
        write_setting(
            &mut out,
            SettingId::MaxFieldSectionSize,
            self.max_field_section_size,
        )?;
        write_setting(
            &mut out,
            SettingId::QPackBlockedStreams,
            self.qpack_blocked_streams,
        )?;
        write_setting(
            &mut out,
            SettingId::EnableConnectProtocol,
            self.enable_connect_protocol,
        )?;
        write_setting(&mut out, SettingId::H3Datagram, self.h3_datagram)?;
        write_setting(
            &mut out,
            SettingId::EnableWebTransport,
            self.enable_webtransport,
        )?;
        write_setting(&mut out, SettingId::WebTransportMaxSessions, max_sessions)?;
        Ok(out)
    }

    /// A SETTINGS frame of the settings that are there, by ascending ids.
    #[tactic(auto, using(crate::proofs::SettingsAgain::settings_again))]
    pub fn generate_frame(&self, alloc: Global) -> Result<Frame, OutOfMemory>
        ensures frame { IfOk result (λ f. f ≡ record { kind = kinds.Settings; payload = settings_bytes self.now; session = None }) }
        ensures again { IfOk result (λ f. settings_of f.payload ≡ Ok self.now) }
    {
        Ok(Frame::of_settings(self.payload(alloc)?))
    }
}

/// Settings that are being chosen.
#[derive(Debug, Drop)]
pub struct SettingsBuilder {
    settings: Settings,
}

impl Model for SettingsBuilder {
    ghost use Rattle.wt_message.specs.declared.settings.Settings.{Settings};

    ghost Value = { Settings };

    ghost view = { λ b. b.settings };
}

impl SettingsBuilder {
    fn with(mut self, id: SettingId, value: VarInt) -> SettingsBuilder
        ensures { result ≡ with_setting id (Some value) self }
    {
        self.settings.set(id, value);
        self
    }

    /// Sets QPACK_MAX_TABLE_CAPACITY.
    pub fn qpack_max_table_capacity(self, value: VarInt) -> SettingsBuilder
        ensures { result ≡ with_setting ids.QPackMaxTableCapacity (Some value) self }
    {
        self.with(SettingId::QPackMaxTableCapacity, value)
    }

    /// Sets QPACK_BLOCKED_STREAMS.
    pub fn qpack_blocked_streams(self, value: VarInt) -> SettingsBuilder
        ensures { result ≡ with_setting ids.QPackBlockedStreams (Some value) self }
    {
        self.with(SettingId::QPackBlockedStreams, value)
    }

    /// Sets the maximum of sessions.
    pub fn webtransport_max_sessions(self, value: VarInt) -> SettingsBuilder
        ensures { result ≡ with_setting ids.WebTransportMaxSessions (Some value) self }
    {
        self.with(SettingId::WebTransportMaxSessions, value)
    }

    /// Sets ENABLE_CONNECT_PROTOCOL to 1.
    pub fn enable_connect_protocol(self) -> SettingsBuilder
        ensures { result ≡ with_setting ids.EnableConnectProtocol (Some 1) self }
    {
        self.with(SettingId::EnableConnectProtocol, VarInt::from_u32(1))
    }

    /// Sets the setting that enables WebTransport to 1.
    pub fn enable_webtransport(self) -> SettingsBuilder
        ensures { result ≡ with_setting ids.EnableWebTransport (Some 1) self }
    {
        self.with(SettingId::EnableWebTransport, VarInt::from_u32(1))
    }

    /// Sets H3_DATAGRAM to 1.
    pub fn enable_h3_datagrams(self) -> SettingsBuilder
        ensures { result ≡ with_setting ids.H3Datagram (Some 1) self }
    {
        self.with(SettingId::H3Datagram, VarInt::from_u32(1))
    }

    /// The settings that were chosen.
    pub fn build(self) -> Settings
        ensures { result ≡ self }
    {
        self.settings
    }
}
