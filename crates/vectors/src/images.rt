//! Images of all lengths that matter, told, sealed and told again.

fn tell(rt: &HostRuntime, name: &str, image: &mut [u8]) -> anyhow::Result<()> {
    println!(rt; "an image of {name}")?;
    rt.print(inspect::inspect(image))?;
    match inspect::seal(image) {
        Ok(sealed) => rt.println(sealed)?,
        Err(why) => rt.println(why)?,
    }
    rt.print(inspect::inspect(image))?;
    Ok(())
}

pub fn run(rt: &HostRuntime) -> anyhow::Result<()> {
    tell(rt, "no bytes", &mut [])?;
    tell(rt, "one byte", &mut [0x61])?;
    tell(rt, "two bytes", &mut [0x61, 0x62])?;
    tell(rt, "three bytes", &mut [0x61, 0x62, 0x63])?;
    let mut segment = [0xFF; 512];
    tell(rt, "an erased segment", &mut segment)?;
    let mut segment = [0xFF; 512];
    segment[510] = 0x00;
    segment[511] = 0xE0;
    tell(rt, "a segment with an entry", &mut segment)
}
