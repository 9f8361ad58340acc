// Request #108: the station's calls, each by its name.
#![tactic(auto)]

ghost use Rattle.station_order.specs.Order.{temp_ram_init, memory_init, temp_ram_exit, silicon_init, notify_phase, none};
ghost use Rattle.station.specs.Station.{Calls};

use station::Station;

// NotifyPhase.
pub fn notify(station: &mut Station, notification: u64) -> u32
    ensures { Calls notify_phase notification station.old result station.new }
{
    station::call(station, station_order::NOTIFY_PHASE, notification)
}

pub fn temp_ram_init(station: &mut Station) -> u32
    ensures { Calls temp_ram_init none station.old result station.new }
{
    station::call(station, station_order::TEMP_RAM_INIT, station_order::NONE)
}

pub fn memory_init(station: &mut Station) -> u32
    ensures { Calls memory_init none station.old result station.new }
{
    station::call(station, station_order::MEMORY_INIT, station_order::NONE)
}

pub fn temp_ram_exit(station: &mut Station) -> u32
    ensures { Calls temp_ram_exit none station.old result station.new }
{
    station::call(station, station_order::TEMP_RAM_EXIT, station_order::NONE)
}

pub fn silicon_init(station: &mut Station) -> u32
    ensures { Calls silicon_init none station.old result station.new }
{
    station::call(station, station_order::SILICON_INIT, station_order::NONE)
}
