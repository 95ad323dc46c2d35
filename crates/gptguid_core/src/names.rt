//! The named types of partitions.

ghost use Rattle.std.specs.Prelude.{◌≡◌, ◌++◌, map, option_map};
ghost use Rattle.gptguid_core.specs.Types.{guid_of_name, guid_of_number as guid_that_is_written};
ghost use Rattle.gptguid_core.specs.Types.{name_in, name_of_guid, number_in, types as types_by_name};
ghost use Rattle.gptguid_core.specs.OtherTypes.{guid_of_any_name, number_in_any_case};
ghost use Rattle.gptguid_core.specs.OtherTypes.{other_types as other_types_by_word};

use crate::others::other_types;
use uuid::Uuid;

// Each name, and the text of its GUID without hyphens as a number.
#[rattlefmt::skip]
static TYPES: [(&str, u128); 223] = [
    ("efi", 0xC12A7328_F81F_11D2_BA4B_00A0C93EC93B),
    ("esp", 0xC12A7328_F81F_11D2_BA4B_00A0C93EC93B),
    ("uefi", 0xC12A7328_F81F_11D2_BA4B_00A0C93EC93B),
    ("bios-boot", 0x21686148_6449_6E6F_744E_656564454649),
    ("linux", 0x0FC63DAF_8483_4772_8E79_3D69D8477DE4),
    ("linux-boot", 0xBC13C2FF_59E6_4262_A352_B275FD6F7172),
    ("linux-swap", 0x0657FD6D_A4AB_43C4_84E5_0933C84B4F4F),
    ("swap", 0x0657FD6D_A4AB_43C4_84E5_0933C84B4F4F),
    ("linux-home", 0x933AC7E1_2EB4_4F13_B844_0E14E2AEF915),
    ("home", 0x933AC7E1_2EB4_4F13_B844_0E14E2AEF915),
    ("linux-srv", 0x3B8F8425_20E0_4F3B_907F_1A25A76F98E8),
    ("linux-var", 0x4D21B016_B534_45C2_A9FB_5C16E091FD2D),
    ("linux-tmp", 0x7EC6F557_3BC5_4ACA_B293_16EF5DF639D1),
    ("linux-lvm", 0xE6D6D379_F507_44C2_A23C_238F2A3DF928),
    ("linux-raid", 0xA19D880F_05FC_4D3B_A006_743F0F84911E),
    ("linux-luks", 0xCA7D7CCB_63ED_4C53_861C_1742536059CC),
    ("linux-root-alpha", 0x6523F8AE_3EB1_4E2A_A05A_18B695AE656F),
    ("linux-root-arc", 0xD27F46ED_2919_4CB8_BD25_9531F3C16534),
    ("linux-root-arm", 0x69DAD710_2CE4_4E3C_B16C_21A1D49ABED3),
    ("linux-root-arm64", 0xB921B045_1DF0_41C3_AF44_4C6F280D3FAE),
    ("linux-root-ia64", 0x993D8D3D_F80E_4225_855A_9DAF8ED7EA97),
    ("linux-root-loongarch64", 0x77055800_792C_4F94_B39A_98C91B762BB6),
    ("linux-root-mips-le", 0x37C58C8A_D913_4156_A25F_48B1B64E07F0),
    ("linux-root-mips64-le", 0x700BDA43_7A34_4507_B179_EEB93D7A7CA3),
    ("linux-root-ppc", 0x1DE3F1EF_FA98_47B5_8DCD_4A860A654D78),
    ("linux-root-ppc64", 0x912ADE1D_A839_4913_8964_A10EEE08FBD2),
    ("linux-root-ppc64-le", 0xC31C45E6_3F39_412E_80FB_4809C4980599),
    ("linux-root-riscv32", 0x60D5A7FE_8E7D_435C_B714_3DD8162144E1),
    ("linux-root-riscv64", 0x72EC70A6_CF74_40E6_BD49_4BDA08E8F224),
    ("linux-root-s390", 0x08A7ACEA_624C_4A20_91E8_6E0FA67D23F9),
    ("linux-root-s390x", 0x5EEAD9A9_FE09_4A1E_A1D7_520D00531306),
    ("linux-root-tilegx", 0xC50CDD70_3862_4CC3_90E1_809A8C93EE2C),
    ("linux-root-x86", 0x44479540_F297_41B2_9AF7_D131D5F0458A),
    ("linux-root-x86-64", 0x4F68BCE3_E8CD_4DB1_96E7_FBCAF984B709),
    ("linux-root-mips", 0xE9434544_6E2C_47CC_BAE2_12D6DEAFB44C),
    ("linux-root-mips64", 0xD113AF76_80EF_41B4_BDB6_0CFF4D3D4A25),
    ("linux-root-parisc", 0x1AACDB3B_5444_4138_BD9E_E5C2239B2346),
    ("linux-usr-x86", 0x75250D76_8CC6_458E_BD66_BD47CC81A812),
    ("linux-usr-x86-64", 0x8484680C_9521_48C6_9C11_B0720656F69E),
    ("linux-usr-alpha", 0xE18CF08C_33EC_4C0D_8246_C6C6FB3DA024),
    ("linux-usr-arc", 0x7978A683_6316_4922_BBEE_38BFF5A2FECC),
    ("linux-usr-arm", 0x7D0359A3_02B3_4F0A_865C_654403E70625),
    ("linux-usr-arm64", 0xB0E01050_EE5F_4390_949A_9101B17104E9),
    ("linux-usr-ia64", 0x4301D2A6_4E3B_4B2A_BB94_9E0B2C4225EA),
    ("linux-usr-loongarch64", 0xE611C702_575C_4CBE_9A46_434FA0BF7E3F),
    ("linux-usr-mips-le", 0x0F4868E9_9952_4706_979F_3ED3A473E947),
    ("linux-usr-mips64-le", 0xC97C1F32_BA06_40B4_9F22_236061B08AA8),
    ("linux-usr-ppc", 0x7D14FEC5_CC71_415D_9D6C_06BF0B3C3EAF),
    ("linux-usr-ppc64", 0x2C9739E2_F068_46B3_9FD0_01C5A9AFBCCA),
    ("linux-usr-ppc64-le", 0x15BB03AF_77E7_4D4A_B12B_C0D084F7491C),
    ("linux-usr-riscv32", 0xB933FB22_5C3F_4F91_AF90_E2BB0FA50702),
    ("linux-usr-riscv64", 0xBEAEC34B_8442_439B_A40B_984381ED097D),
    ("linux-usr-s390", 0xCD0F869B_D0FB_4CA0_B141_9EA87CC78D66),
    ("linux-usr-s390x", 0x8A4F5770_50AA_4ED3_874A_99B710DB6FEA),
    ("linux-usr-tilegx", 0x55497029_C7C1_44CC_AA39_815ED1558630),
    ("linux-usr-mips", 0x773B2ABC_2A99_4398_8BF5_03BAAC40D02B),
    ("linux-usr-mips64", 0x57E13958_7331_4365_8E6E_35EEEE17C61B),
    ("linux-usr-parisc", 0xDC4A4480_6917_4262_A4EC_DB9384949F25),
    ("linux-root-x86-verity", 0xD13C5D3B_B5D1_422A_B29F_9454FDC89D76),
    ("linux-root-x86-64-verity", 0x2C7357ED_EBD2_46D9_AEC1_23D437EC2BF5),
    ("linux-root-alpha-verity", 0xFC56D9E9_E6E5_4C06_BE32_E74407CE09A5),
    ("linux-root-arc-verity", 0x24B2D975_0F97_4521_AFA1_CD531E421B8D),
    ("linux-root-arm-verity", 0x7386CDF2_203C_47A9_A498_F2ECCE45A2D6),
    ("linux-root-arm64-verity", 0xDF3300CE_D69F_4C92_978C_9BFB0F38D820),
    ("linux-root-ia64-verity", 0x86ED10D5_B607_45BB_8957_D350F23D0571),
    ("linux-root-loongarch64-verity", 0xF3393B22_E9AF_4613_A948_9D3BFBD0C535),
    ("linux-root-mips-le-verity", 0xD7D150D2_2A04_4A33_8F12_16651205FF7B),
    ("linux-root-mips64-le-verity", 0x16B417F8_3E06_4F57_8DD2_9B5232F41AA6),
    ("linux-root-ppc-verity", 0x98CFE649_1588_46DC_B2F0_ADD147424925),
    ("linux-root-ppc64-verity", 0x9225A9A3_3C19_4D89_B4F6_EEFF88F17631),
    ("linux-root-ppc64-le-verity", 0x906BD944_4589_4AAE_A4E4_DD983917446A),
    ("linux-root-riscv32-verity", 0xAE0253BE_1167_4007_AC68_43926C14C5DE),
    ("linux-root-riscv64-verity", 0xB6ED5582_440B_4209_B8DA_5FF7C419EA3D),
    ("linux-root-s390-verity", 0x7AC63B47_B25C_463B_8DF8_B4A94E6C90E1),
    ("linux-root-s390x-verity", 0xB325BFBE_C7BE_4AB8_8357_139E652D2F6B),
    ("linux-root-tilegx-verity", 0x966061EC_28E4_4B2E_B4A5_1F0A825A1D84),
    ("linux-root-mips-verity", 0x7A430799_F711_4C7E_8E5B_1D685BD48607),
    ("linux-root-mips64-verity", 0x579536F8_6A33_4055_A95A_DF2D5E2C42A8),
    ("linux-root-parisc-verity", 0xD212A430_FBC5_49F9_A983_A7FEEF2B8D0E),
    ("linux-usr-x86-verity", 0x8F461B0D_14EE_4E81_9AA9_049B6FB97ABD),
    ("linux-usr-x86-64-verity", 0x77FF5F63_E7B6_4633_ACF4_1565B864C0E6),
    ("linux-usr-alpha-verity", 0x8CCE0D25_C0D0_4A44_BD87_46331BF1DF67),
    ("linux-usr-arc-verity", 0xFCA0598C_D880_4591_8C16_4EDA05C7347C),
    ("linux-usr-arm-verity", 0xC215D751_7BCD_4649_BE90_6627490A4C05),
    ("linux-usr-arm64-verity", 0x6E11A4E7_FBCA_4DED_B9E9_E1A512BB664E),
    ("linux-usr-ia64-verity", 0x6A491E03_3BE7_4545_8E38_83320E0EA880),
    ("linux-usr-loongarch64-verity", 0xF46B2C26_59AE_48F0_9106_C50ED47F673D),
    ("linux-usr-mips-le-verity", 0x46B98D8D_B55C_4E8F_AAB3_37FCA7F80752),
    ("linux-usr-mips64-le-verity", 0x3C3D61FE_B5F3_414D_BB71_8739A694A4EF),
    ("linux-usr-ppc-verity", 0xDF765D00_270E_49E5_BC75_F47BB2118B09),
    ("linux-usr-ppc64-verity", 0xBDB528A5_A259_475F_A87D_DA53FA736A07),
    ("linux-usr-ppc64-le-verity", 0xEE2B9983_21E8_4153_86D9_B6901A54D1CE),
    ("linux-usr-riscv32-verity", 0xCB1EE4E3_8CD0_4136_A0A4_AA61A32E8730),
    ("linux-usr-riscv64-verity", 0x8F1056BE_9B05_47C4_81D6_BE53128E5B54),
    ("linux-usr-s390-verity", 0xB663C618_E7BC_4D6D_90AA_11B756BB1797),
    ("linux-usr-s390x-verity", 0x31741CC4_1A2A_4111_A581_E00B447D2D06),
    ("linux-usr-tilegx-verity", 0x2FB4BF56_07FA_42DA_8132_6B139F2026AE),
    ("linux-usr-mips-verity", 0x6E5A1BC8_D223_49B7_BCA8_37A5FCCEB996),
    ("linux-usr-mips64-verity", 0x81CF9D90_7458_4DF4_8DCF_C8A3A404F09B),
    ("linux-usr-parisc-verity", 0x5843D618_EC37_48D7_9F12_CEA8E08768B2),
    ("linux-root-x86-verity-sig", 0x5996FC05_109C_48DE_808B_23FA0830B676),
    ("linux-root-x86-64-verity-sig", 0x41092B05_9FC8_4523_994F_2DEF0408B176),
    ("linux-root-alpha-verity-sig", 0xD46495B7_A053_414F_80F7_700C99921EF8),
    ("linux-root-arc-verity-sig", 0x143A70BA_CBD3_4F06_919F_6C05683A78BC),
    ("linux-root-arm-verity-sig", 0x42B0455F_EB11_491D_98D3_56145BA9D037),
    ("linux-root-arm64-verity-sig", 0x6DB69DE6_29F4_4758_A7A5_962190F00CE3),
    ("linux-root-ia64-verity-sig", 0xE98B36EE_32BA_4882_9B12_0CE14655F46A),
    ("linux-root-loongarch64-verity-sig", 0x5AFB67EB_ECC8_4F85_AE8E_AC1E7C50E7D0),
    ("linux-root-mips-le-verity-sig", 0xC919CC1F_4456_4EFF_918C_F75E94525CA5),
    ("linux-root-mips64-le-verity-sig", 0x904E58EF_5C65_4A31_9C57_6AF5FC7C5DE7),
    ("linux-root-ppc-verity-sig", 0x1B31B5AA_ADD9_463A_B2ED_BD467FC857E7),
    ("linux-root-ppc64-verity-sig", 0xF5E2C20C_45B2_4FFA_BCE9_2A60737E1AAF),
    ("linux-root-ppc64-le-verity-sig", 0xD4A236E7_E873_4C07_BF1D_BF6CF7F1C3C6),
    ("linux-root-riscv32-verity-sig", 0x3A112A75_8729_4380_B4CF_764D79934448),
    ("linux-root-riscv64-verity-sig", 0xEFE0F087_EA8D_4469_821A_4C2A96A8386A),
    ("linux-root-s390-verity-sig", 0x3482388E_4254_435A_A241_766A065F9960),
    ("linux-root-s390x-verity-sig", 0xC80187A5_73A3_491A_901A_017C3FA953E9),
    ("linux-root-tilegx-verity-sig", 0xB3671439_97B0_4A53_90F7_2D5A8F3AD47B),
    ("linux-root-mips-verity-sig", 0xBBA210A2_9C5D_45EE_9E87_FF2CCBD002D0),
    ("linux-root-mips64-verity-sig", 0x43CE94D4_0F3D_4999_8250_B9DEAFD98E6E),
    ("linux-root-parisc-verity-sig", 0x15DE6170_65D3_431C_916E_B0DCD8393F25),
    ("linux-usr-x86-verity-sig", 0x974A71C0_DE41_43C3_BE5D_5C5CCD1AD2C0),
    ("linux-usr-x86-64-verity-sig", 0xE7BB33FB_06CF_4E81_8273_E543B413E2E2),
    ("linux-usr-alpha-verity-sig", 0x5C6E1C76_076A_457A_A0FE_F3B4CD21CE6E),
    ("linux-usr-arc-verity-sig", 0x94F9A9A1_9971_427A_A400_50CB297F0F35),
    ("linux-usr-arm-verity-sig", 0xD7FF812F_37D1_4902_A810_D76BA57B975A),
    ("linux-usr-arm64-verity-sig", 0xC23CE4FF_44BD_4B00_B2D4_B41B3419E02A),
    ("linux-usr-ia64-verity-sig", 0x8DE58BC2_2A43_460D_B14E_A76E4A17B47F),
    ("linux-usr-loongarch64-verity-sig", 0xB024F315_D330_444C_8461_44BBDE524E99),
    ("linux-usr-mips-le-verity-sig", 0x3E23CA0B_A4BC_4B4E_8087_5AB6A26AA8A9),
    ("linux-usr-mips64-le-verity-sig", 0xF2C2C7EE_ADCC_4351_B5C6_EE9816B66E16),
    ("linux-usr-ppc-verity-sig", 0x7007891D_D371_4A80_86A4_5CB875B9302E),
    ("linux-usr-ppc64-verity-sig", 0x0B888863_D7F8_4D9E_9766_239FCE4D58AF),
    ("linux-usr-ppc64-le-verity-sig", 0xC8BFBD1E_268E_4521_8BBA_BF314C399557),
    ("linux-usr-riscv32-verity-sig", 0xC3836A13_3137_45BA_B583_B16C50FE5EB4),
    ("linux-usr-riscv64-verity-sig", 0xD2F9000A_7A18_453F_B5CD_4D32F77A7B32),
    ("linux-usr-s390-verity-sig", 0x17440E4F_A8D0_467F_A46E_3912AE6EF2C5),
    ("linux-usr-s390x-verity-sig", 0x3F324816_667B_46AE_86EE_9B0C0C6C11B4),
    ("linux-usr-tilegx-verity-sig", 0x4EDE75E2_6CCC_4CC8_B9C7_70334B087510),
    ("linux-usr-mips-verity-sig", 0x97AE158D_F216_497B_8057_F7F905770F54),
    ("linux-usr-mips64-verity-sig", 0x05816CE2_DD40_4AC6_A61D_37D32DC1BA7D),
    ("linux-usr-parisc-verity-sig", 0x450DD7D1_3224_45EC_9CF2_A43A346D71EE),
    ("microsoft-data", 0xEBD0A0A2_B9E5_4433_87C0_68B6B72699C7),
    ("microsoft-reserved", 0xE3C9E316_0B5C_4DB8_817D_F92DF00215AE),
    ("microsoft-recovery", 0xDE94BBA4_06D1_4D40_A16A_BFD50179D6AC),
    ("apple-hfs", 0x48465300_0000_11AA_AA11_00306543ECAC),
    ("apple-apfs", 0x7C3457EF_0000_11AA_AA11_00306543ECAC),
    ("mbr", 0x024DEE41_33E7_11D3_9D69_0008C781F39F),
    ("intel-fast-flash", 0xD3BFE2DE_3DAF_11DF_BA40_E3A556D89593),
    ("sony-boot", 0xF4019732_066E_4E12_8273_346C5641494F),
    ("lenovo-boot", 0xBFBFAFE7_A34F_448A_9A5B_6213EB736C22),
    ("prep-boot", 0x9E1A2D38_C612_4316_AA26_8B49521E5A8B),
    ("onie-boot", 0x7412F7D5_A156_4B13_81DC_867174929325),
    ("onie-config", 0xD4E6E2CD_4469_46F3_B5CB_1BFF57AFC149),
    ("microsoft-ldm-metadata", 0x5808C8AA_7E8F_42E0_85D2_E1E90434CFB3),
    ("microsoft-ldm-data", 0xAF9B60A0_1431_4F62_BC68_3311714A69AD),
    ("ibm-general-parallel-fs", 0x37AFFC90_EF7D_4E96_91C3_2D7AE055B174),
    ("microsoft-storage-spaces", 0xE75CAF8F_F680_4CEE_AFA3_B001E56EFC2D),
    ("hp-ux-data", 0x75894C1E_3AEB_11D3_B7C1_7B03A0000000),
    ("hp-ux-service", 0xE2A1E728_32E3_11D6_A682_7B03A0000000),
    ("linux-reserved", 0x8DA63339_0007_60C0_C436_083AC8230908),
    ("linux-user-home", 0x773F91EF_66D4_49B5_BD83_D683BF40AD16),
    ("freebsd-data", 0x516E7CB4_6ECF_11D6_8FF8_00022D09712B),
    ("freebsd-boot", 0x83BD6B9D_7F41_11DC_BE0B_001560B84F0F),
    ("freebsd-swap", 0x516E7CB5_6ECF_11D6_8FF8_00022D09712B),
    ("freebsd-ufs", 0x516E7CB6_6ECF_11D6_8FF8_00022D09712B),
    ("freebsd-zfs", 0x516E7CBA_6ECF_11D6_8FF8_00022D09712B),
    ("freebsd-vinum", 0x516E7CB8_6ECF_11D6_8FF8_00022D09712B),
    ("apple-ufs", 0x55465300_0000_11AA_AA11_00306543ECAC),
    ("apple-raid", 0x52414944_0000_11AA_AA11_00306543ECAC),
    ("apple-raid-offline", 0x52414944_5F4F_11AA_AA11_00306543ECAC),
    ("apple-boot", 0x426F6F74_0000_11AA_AA11_00306543ECAC),
    ("apple-label", 0x4C616265_6C00_11AA_AA11_00306543ECAC),
    ("apple-tv-recovery", 0x5265636F_7665_11AA_AA11_00306543ECAC),
    ("apple-core-storage", 0x53746F72_6167_11AA_AA11_00306543ECAC),
    ("apple-silicon-boot", 0x69646961_6700_11AA_AA11_00306543ECAC),
    ("apple-silicon-recovery", 0x52637672_7900_11AA_AA11_00306543ECAC),
    ("solaris-boot", 0x6A82CB45_1DD2_11B2_99A6_080020736631),
    ("solaris-root", 0x6A85CF4D_1DD2_11B2_99A6_080020736631),
    ("solaris-usr", 0x6A898CC3_1DD2_11B2_99A6_080020736631),
    ("solaris-swap", 0x6A87C46F_1DD2_11B2_99A6_080020736631),
    ("solaris-backup", 0x6A8B642B_1DD2_11B2_99A6_080020736631),
    ("solaris-var", 0x6A8EF2E9_1DD2_11B2_99A6_080020736631),
    ("solaris-home", 0x6A90BA39_1DD2_11B2_99A6_080020736631),
    ("solaris-alternate-sector", 0x6A9283A5_1DD2_11B2_99A6_080020736631),
    ("solaris-reserved-1", 0x6A945A3B_1DD2_11B2_99A6_080020736631),
    ("solaris-reserved-2", 0x6A9630D1_1DD2_11B2_99A6_080020736631),
    ("solaris-reserved-3", 0x6A980767_1DD2_11B2_99A6_080020736631),
    ("solaris-reserved-4", 0x6A96237F_1DD2_11B2_99A6_080020736631),
    ("solaris-reserved-5", 0x6A8D2AC7_1DD2_11B2_99A6_080020736631),
    ("netbsd-swap", 0x49F48D32_B10E_11DC_B99B_0019D1879648),
    ("netbsd-ffs", 0x49F48D5A_B10E_11DC_B99B_0019D1879648),
    ("netbsd-lfs", 0x49F48D82_B10E_11DC_B99B_0019D1879648),
    ("netbsd-concatenated", 0x2DB519C4_B10F_11DC_B99B_0019D1879648),
    ("netbsd-encrypted", 0x2DB519EC_B10F_11DC_B99B_0019D1879648),
    ("netbsd-raid", 0x49F48DAA_B10E_11DC_B99B_0019D1879648),
    ("chromeos-kernel", 0xFE3A2A5D_4F32_41A7_B725_ACCC3285A309),
    ("chromeos-root", 0x3CB8E202_3B7E_47DD_8A3C_7FF2A13CFCEC),
    ("chromeos-reserved", 0x2E0A753D_9E48_43B0_8337_B15192CB1B5E),
    ("midnightbsd-data", 0x85D5E45A_237C_11E1_B4B3_E89A8F7FC3A7),
    ("midnightbsd-boot", 0x85D5E45E_237C_11E1_B4B3_E89A8F7FC3A7),
    ("midnightbsd-swap", 0x85D5E45B_237C_11E1_B4B3_E89A8F7FC3A7),
    ("midnightbsd-ufs", 0x0394EF8B_237E_11E1_B4B3_E89A8F7FC3A7),
    ("midnightbsd-zfs", 0x85D5E45D_237C_11E1_B4B3_E89A8F7FC3A7),
    ("midnightbsd-vinum", 0x85D5E45C_237C_11E1_B4B3_E89A8F7FC3A7),
    ("ceph-journal", 0x45B0969E_9B03_4F30_B4C6_B4B80CEFF106),
    ("ceph-encrypted-journal", 0x45B0969E_9B03_4F30_B4C6_5EC00CEFF106),
    ("ceph-osd", 0x4FBD7E29_9D25_41B8_AFD0_062C0CEFF05D),
    ("ceph-crypt-osd", 0x4FBD7E29_9D25_41B8_AFD0_5EC00CEFF05D),
    ("ceph-disk-in-creation", 0x89C57F98_2FE5_4DC0_89C1_F3AD0CEFF2BE),
    ("ceph-crypt-disk-in-creation", 0x89C57F98_2FE5_4DC0_89C1_5EC00CEFF2BE),
    ("vmware-vmfs", 0xAA31E02A_400F_11DB_9590_000C2911D1B8),
    ("vmware-diagnostic", 0x9D275380_40AD_11DB_BF97_000C2911D1B8),
    ("vmware-virtual-san", 0x381CFCCC_7288_11E0_92EE_000C2911D0B2),
    ("vmware-virsto", 0x77719A0C_A4A0_11E3_A47E_000C29745A24),
    ("vmware-reserved", 0x9198EFFC_31C0_11DB_8F78_000C2911D1B8),
    ("openbsd-data", 0x824CC7A0_36A8_11E3_890A_952519AD3F61),
    ("qnx6", 0xCEF5A9AD_73BC_4601_89F3_CDEEEEE321A1),
    ("plan9", 0xC91818F9_8025_47AF_89D2_F030D7000C2C),
    ("hifive-fsbl", 0x5B193300_FC78_40CD_8002_E86C45580B47),
    ("hifive-bbl", 0x2E54B353_1271_4842_806F_E436D6AF6985),
    ("haiku-bfs", 0x42465331_3BA3_10F1_802A_4861696B7521),
    ("marvell-armada-3700-boot", 0x6828311A_BA55_42A4_BCDE_A89BB5EDECAE),
];

/// Returns the types: each name, and the text of its GUID without hyphens as a number.
#[tactic(auto, unfolding(crate::specs::Types::types))]
pub fn types() -> &'static [(&'static str, u128)]
    ensures { map (λ t. (t.0.now, t.1)) result.now ≡ types_by_name }
{
    &TYPES
}

/// Returns the GUID, as on a disk, whose text without hyphens is this number.
pub fn guid_of_number(number: u128) -> [u8; 16]
    ensures { result ≡ guid_that_is_written number }
{
    Uuid::from_u128(number).to_bytes_le()
}

/// Returns the GUID, as on a disk, of the type with this name.
pub fn from_name(name: &str) -> Option<[u8; 16]>
    ensures { result ≡ guid_of_name name.now }
{
    let number = find_number(types(), name)?;
    Some(guid_of_number(number))
}

// Returns the number of the type with this name.
fn find_number(types: &[(&str, u128)], name: &str) -> Option<u128>
    ensures { result ≡ number_in (map (λ t. (t.0.now, t.1)) types.now) name.now }
{
    for (known, number) in types {
        if *known == name {
            return Some(*number);
        }
    }
    None
}

/// Returns the GUID, as on a disk, of the type with this name, or with this word of another program, in any case.
pub fn from_any_name(name: &str) -> Option<[u8; 16]>
    ensures value { result ≡ guid_of_any_name name.now }
{
    let number = find_any_name(name)?;
    Some(guid_of_number(number))
}

// Returns the number of the type with this name, or with this word of another program, in any case.
#[tactic(auto, using(crate::proofs::Found::first_has, crate::proofs::Found::second_has))]
fn find_any_name(name: &str) -> Option<u128>
    ensures value { result ≡ number_in_any_case (types_by_name ++ other_types_by_word) name.now }
{
    match find_in_any_case(types(), name) {
        Some(number) => Some(number),
        None => find_in_any_case(other_types(), name),
    }
}

// Returns the number of the first type whose name differs from this one at most in the case of ASCII letters.
fn find_in_any_case(types: &[(&str, u128)], name: &str) -> Option<u128>
    ensures value { result ≡ number_in_any_case (map (λ t. (t.0.now, t.1)) types.now) name.now }
{
    for (known, number) in types {
        if known.eq_ignore_ascii_case(name) {
            return Some(*number);
        }
    }
    None
}

/// Returns the first name of the type with this GUID, which is as on a disk.
pub fn name_of(guid: &[u8; 16]) -> Option<&'static str>
    ensures { option_map (λ name. name.now) result ≡ name_of_guid guid.now }
{
    find_name(types(), guid)
}

fn find_name<'a>(types: &[(&'a str, u128)], guid: &[u8; 16]) -> Option<&'a str>
    ensures { option_map (λ name. name.now) result
        ≡ name_in (map (λ t. (t.0.now, t.1)) types.now) guid.now }
{
    for (name, number) in types {
        if guid_of_number(*number) == *guid {
            return Some(*name);
        }
    }
    None
}
