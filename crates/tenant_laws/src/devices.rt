//! Laws of lives on devices.

ghost use Rattle.tenant_laws.specs.DeviceLives.{what_devices_tell_a_tenant, lives_on_devices_are_lived, stopped_lives_are_lived};

use sector_device::Device;
use server::decide::EventHandler;

/// The same as `lives_tell_tenants_what_they_see` of lives on two devices, each with a journal or without.
/// The lives go on as `lives_follow_stops` of `databases` says, with a stop at any moment of each: while it
/// opens its database, between two events, or within one. Those that began are compared place by place, up
/// to the stop of each; one that was stopped before it began, or was refused, did nothing. A tenant's
/// sessions have the numbers of the machine, in which each client has numbers of its own.
pub fn devices_tell_tenants_what_they_see<D: Device, E: Device, X: EventHandler>()
    ensures { what_devices_tell_a_tenant D.Device E.Device X X X.Reads }
{}

/// No life is left out there: one that ended is among them with all its events, and one that was stopped
/// after it began with those that were answered up to the stop.
pub fn device_lives_are_lived<D: Device, X: EventHandler>()
    ensures whole { lives_on_devices_are_lived D.Device X X.Reads }
    ensures stopped { stopped_lives_are_lived D.Device X.Reads }
{}
