//! A channel over a device: it keeps a receipt of each text that the device took, and counts the others as failures.

ghost use Rattle.std.specs.Prelude.{◌≡◌, ◌↔◌, ◌+◌, ◌<◌, ◌≤◌, [], ◌∷◌};
ghost use Rattle.std.specs.Prelude.{◌++◌, length, is_none, is_ok, false, IsErrOf, OnOk, OnErr, None, Some};
ghost use Rattle.channel.specs.claims.Channels.{receipt_of};
ghost use Rattle.channel.specs.Channels.{IsCounted, WasOffered, offer_of};
ghost use Rattle.channel_kinds.specs.DeviceChannel.{IsWithin, KeepsLimits, SendsTo, account_of};

use crate::device::TextDevice;
use channel::letter::Letter;
use channel::record::ChannelRecord;
use channel::{Channel, Fault, Kind, Receipt};
use std::alloc::{AllocError, Global};
use std::marker::Model;

/// A channel over a device. Contracts see the device, as long as it is open, and what is kept.
#[derive(Drop)]
pub struct DeviceChannel<D: TextDevice> {
    /// The device; none once the channel was closed.
    device: Option<D>,
    kept: ChannelRecord,
    number: u64,
    /// The device's limit and kind, which a closed channel still tells.
    limit: u64,
    kind: Kind,
}

impl<D: TextDevice> Model for DeviceChannel<D> {
    ghost use Rattle.channel_kinds.specs.DeviceChannel.{Held, IsOfDevice};

    ghost Value = { Held D };

    ghost view = { λ s. record {
      device = s.device;
      kept = s.kept;
      number = s.number;
      limit = s.limit;
      kind = s.kind;
    } };

    ghost invariant = { λ s. IsOfDevice D.limit D.kind s.limit s.kind s.device };
}

impl<D: TextDevice> DeviceChannel<D> {
    /// A channel that has taken nothing. It sends the device nothing, and takes no memory.
    pub fn new(alloc: Global, device: D) -> DeviceChannel<D>
        ensures device { result.device ≡ Some device }
        ensures taken { result.kept.taken ≡ [] }
        ensures failures { result.kept.failures ≡ 0 }
        ensures number { result.number ≡ 0 }
        ensures limit { result.limit ≡ D.limit device }
        ensures kind { result.kind ≡ D.kind device }
    {
        let limit = device.limit();
        let kind = device.kind();
        DeviceChannel {
            device: Some(device),
            kept: ChannelRecord::new(alloc),
            number: 0,
            limit,
            kind,
        }
    }

    /// The same channel with another number.
    pub fn numbered(self, number: u64) -> DeviceChannel<D>
        ensures { result ≡ record self { number = number } }
    {
        DeviceChannel { number, ..self }
    }

    /// The device as it is; none once the channel was closed.
    pub fn into_device(self) -> Option<D>
        ensures { result ≡ self.device }
    {
        let DeviceChannel {
            device,
            kept: _,
            number: _,
            limit: _,
            kind: _,
        } = self;
        device
    }
}

/// Hands a text to a device, and tells whether it was taken. Where there is none, it isn't.
fn send<D: TextDevice>(device: &mut Option<D>, text: &[u8]) -> bool
    requires { IsWithin D.limit device.old text.now }
    ensures sends { SendsTo D.sends device.old text.now result device.new }
    ensures same { KeepsLimits D.limit D.kind device.old device.new }
{
    match device {
        Some(device) => device.send(text),
        None => false,
    }
}

impl<D: TextDevice + Send> Channel for DeviceChannel<D> {
    ghost use Rattle.channel.specs.OfferLaws.{more_offered, none_offered};

    ghost account = { account_of };

    ghost room = { λ s. s.kept.room };

    ghost kind = { λ s. s.kind };

    ghost offered = { λ a offers b. WasOffered (account_of a) offers (account_of b) };

    ghost stays = { λ s. none_offered (account_of s) };

    ghost follows = { λ a b c one two. more_offered (account_of a) (account_of b) (account_of c) one two };

    fn kind(&self) -> Kind {
        self.kind
    }

    fn limit(&self) -> u64 {
        self.limit
    }

    fn number(&self) -> u64 {
        self.number
    }

    fn failures(&self) -> u64 {
        self.kept.failures()
    }

    fn room(&self) -> bool {
        self.kept.has_room()
    }

    fn taken(&self) -> &[Receipt] {
        self.kept.taken()
    }

    fn reserve(&mut self) -> Result<(), AllocError>
        ensures ok { OnOk result (0 < self.new.kept.room) }
        ensures err { OnErr result (self.new.kept.room ≡ self.old.kept.room) }
        ensures account { account_of self.new ≡ account_of self.old }
        ensures kind { self.new.kind ≡ self.old.kind }
        ensures offered { WasOffered (account_of self.old) [] (account_of self.new) }
        ensures device { self.new.device ≡ self.old.device }
    {
        self.kept.reserve()
    }

    /// Drops the device: a mailbox writes its closing line, a pager its farewell, and what the system lent is given back.
    fn close(&mut self)
        ensures { self.new ≡ record self.old { device = None } }
    {
        let _dropped = self.device.take();
    }

    /// Ok where the device took the text. A text that is too long leaves the device alone.
    fn deliver(&mut self, letter: &Letter) -> Result<(), Fault>
        requires { 0 < self.old.kept.room }
        ensures ok { OnOk result
            (self.new.kept.taken ≡ self.old.kept.taken ++ receipt_of letter.now.notice ∷ []) }
        ensures ok_room { OnOk result (self.old.kept.room ≤ self.new.kept.room + 1) }
        ensures ok_failures { OnOk result (self.new.kept.failures ≡ self.old.kept.failures) }
        ensures err { OnErr result (self.new.kept.taken ≡ self.old.kept.taken) }
        ensures err_room { OnErr result (self.new.kept.room ≡ self.old.kept.room) }
        ensures too_long { IsErrOf result Fault.TooLong
            ↔ (self.old.limit < length letter.now.text) }
        ensures uncounted { IsErrOf result Fault.TooLong
            → self.new.kept.failures ≡ self.old.kept.failures }
        ensures counted { IsErrOf result Fault.Device
            → IsCounted self.old.kept.failures self.new.kept.failures }
        ensures limit { self.new.limit ≡ self.old.limit }
        ensures kind { self.new.kind ≡ self.old.kind }
        ensures sends { length letter.now.text ≤ self.old.limit
            → SendsTo D.sends self.old.device letter.now.text (is_ok result) self.new.device }
        ensures untouched { IsErrOf result Fault.TooLong → self.new.device ≡ self.old.device }
        ensures number { self.new.number ≡ self.old.number }
        ensures was_open { OnOk result (is_none self.old.device ≡ false) }
        ensures closed { is_none self.new.device ≡ is_none self.old.device }
        ensures offered { WasOffered (account_of self.old) (offer_of letter.now (is_ok result) ∷ [])
            (account_of self.new) }
    {
        if letter.text.len() as u64 > self.limit {
            return Err(Fault::TooLong);
        }
        if send(&mut self.device, letter.text.as_slice()) {
            self.kept.add(letter.notice);
            Ok(())
        } else {
            self.kept.count_failure();
            Err(Fault::Device)
        }
    }
}
